//! Numbers in decimal.

ghost use Rattle.std.specs.Prelude.{◌≡◌, IfSome, IfNone, true, false};
ghost use Rattle.text.specs.Line as L;
ghost use Rattle.text.specs.ReadText.{is_number, value};

use itoa::Buffer;

/// The last `most` digits of a number as it is written, without leading zeros: all of them, where it
/// has no more.
#[tactic(auto, using(crate::proofs::Decimal::digits_cut))]
pub fn digits(number: u32, most: usize, buffer: &mut Buffer) -> &[u8]
    ensures { result.now ≡ L.digits most number }
{
    let all = buffer.format(number).as_bytes();
    &all[all.len().saturating_sub(most)..]
}

/// A number as it is written: without leading zeros.
pub fn decimal(number: u16, buffer: &mut Buffer) -> &[u8]
    ensures { result.now ≡ L.decimal number }
{
    digits(u32::from(number), 5, buffer)
}

/// The number up to 65,535 that is written so.
pub fn number_of(run: &[u8]) -> Option<u16>
    ensures found { IfSome result (λ number. (is_number run.now ≡ true) × (value 0 run.now ≡ number)) }
    ensures none { IfNone result (is_number run.now ≡ false) }
{
    let text = str::from_utf8(run).ok()?;
    let number = text.parse::<u16>().ok()?;
    if decimal(number, &mut Buffer::new()) != run {
        return None;
    }
    Some(number)
}
