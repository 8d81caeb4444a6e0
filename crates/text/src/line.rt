//! Reading a line, and writing one, into memory that is long enough for every policy.

ghost use Rattle.std.specs.Prelude.{◌≡◌, ◌≤◌, length, IfOk, IfErr};
ghost use Rattle.files.specs.Encoding.{policy_file};
ghost use Rattle.files.specs.ReadPolicy.{read_policy};
ghost use Rattle.files.specs.Refusal.{refused};
ghost use Rattle.files.specs.Faults.{fault_number};
ghost use Rattle.text.specs.Line as L;
ghost use Rattle.text.specs.ReadText.{read_text};
ghost use Rattle.text.specs.Faults.{text_number, text_place};
ghost use Rattle.text.specs.Held.{Holds};

use crate::convert::convert;
use crate::end::End;
use crate::fault::TextError;
use crate::output::Output;
use crate::sink::{Body, Line};
use crate::words::Words;
use files::{DEEPEST, PolicyError, Reader, Sort};

/// How long a line or a policy file is at most: 18 bytes for each of 255 nodes, and a file's frame.
pub const LONGEST: usize = 4593;

/// Reads a line into a policy file at the front of `file`: how many bytes it has.
pub fn read_line(text: &[u8], file: &mut [u8]) -> Result<usize, TextError>
    requires { 4593 ≤ length file.old }
    ensures ok { IfOk result (Holds policy_file file.new (read_text text.now)) }
    ensures err { IfErr result (λ e. read_text text.now ≡ refused (text_number e) (text_place e)) }
{
    let mut words = Words::new(text);
    let mut output = Output::new(file);

    // The version, and room for the body's length.
    output.extend(&[1, 0, 0]);
    convert::<_, Body>(
        &mut words,
        &mut output,
        Sort::Policy,
        DEEPEST,
        End::LineFeed,
    )?;
    words.end()?;
    let len = output.len();
    // At most 4,590, so `as` cuts nothing off; `try_from` would have an error that cannot occur.
    files::put(file, 1, &((len - 3) as u16).to_be_bytes());
    Ok(len)
}

/// Writes the line of a policy file at the front of `line`: how many bytes it has.
pub fn write_line(file: &[u8], line: &mut [u8]) -> Result<usize, PolicyError>
    requires { 4593 ≤ length line.old }
    ensures ok { IfOk result (Holds L.line line.new (read_policy file.now)) }
    ensures err { IfErr result (λ e. read_policy file.now ≡ refused (fault_number e.fault) e.place) }
{
    let mut reader = Reader::open(file)?;
    let mut output = Output::new(line);
    convert::<_, Line>(
        &mut reader,
        &mut output,
        Sort::Policy,
        DEEPEST,
        End::LineFeed,
    )?;
    reader.finish()?;
    Ok(output.len())
}
