// Decimal numbers as they are read: digits with no leading zero, but for 0 itself.
ghost use Rattle.std.specs.Prelude.{◌≡◌};
ghost use Rattle.fields.specs.Numbers.{is_numeral, value_of, up_to};

// Whether a field is a number, of any length.
pub(crate) fn is_numeral(field: &[u8]) -> bool
    ensures { result ≡ is_numeral field.now }
{
    match field {
        [] => false,
        [b'0', _, ..] => false,
        _ => field.iter().all(u8::is_ascii_digit),
    }
}

// The number that the digits write, where it is at most max: any count of digits may be passed.
#[tactic(auto, using(crate::proofs::Digits::value_over, crate::proofs::Digits::up_to_no))]
pub fn value_up_to(digits: &[u8], max: u32) -> Option<u32>
    ensures { result ≡ up_to max (value_of digits.now) }
{
    let mut value: u32 = 0;
    for digit in digits {
        let ones = u32::from(digit.saturating_sub(b'0'));
        value = value.checked_mul(10)?.checked_add(ones)?;
    }
    (value <= max).then_some(value)
}
