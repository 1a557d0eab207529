// Amounts of millionths as text.
ghost use Rattle.std.specs.Prelude.{◌≡◌, ◌+◌, ◌*◌, ◌%◌, ◌^◌, ◌<◌, ◌≤◌, ◌++◌, [], length, codes, pos, ◌<ℤ◌, ◌≤ℤ◌, unsigned_abs, vec_len, vec_capacity, OnOk, OnErr};
ghost use Rattle.mwt_base.specs.Limits.{most_amount};
ghost use Rattle.length_enclosure.specs.Amount.{amount, six_digits};

use itoa::Buffer;
use mwt_base::NoMemory;

// How many millionths make a unit.
const UNIT: u128 = 1_000_000;

/// Appends `n` millionths as an amount: a minus sign where `n` is negative, the whole units with no
/// leading zero, a dot and six digits. `NoMemory` comes only where `out` has no room for the text and
/// cannot grow, and leaves `out` as it was.
pub fn write_units(out: &mut Vec<u8>, n: i128) -> Result<(), NoMemory>
    requires { unsigned_abs n ≤ most_amount }
    ensures written { OnOk result (out.new.items ≡ out.old.items ++ amount n) }
    ensures kept { OnErr result (out.new.items ≡ out.old.items) }
    ensures full { OnErr result (vec_capacity out.old < vec_len out.old + length (amount n)) }
{
    let size = n.unsigned_abs();
    let mut buffer = Buffer::new();
    let whole = buffer.format(size / UNIT).as_bytes();
    let sign = sign_of(n);
    // Room for the whole text first, so that nothing fails halfway.
    out.reserve(sign.len() + whole.len() + 7)?;
    out.extend_from_slice(sign)?;
    out.extend_from_slice(whole)?;
    out.push_reserved(b'.');
    out.extend_from_slice(&six_digits((size % UNIT) as u32))?;
    Ok(())
}

// What stands before the size of `n`.
fn sign_of(n: i128) -> &'static [u8]
    ensures negative { n <ℤ pos 0 → result.now ≡ codes "-" }
    ensures other { pos 0 ≤ℤ n → result.now ≡ [] }
{
    if n < 0 { b"-" } else { b"" }
}

// The last six digits of `n` as text.
fn six_digits(n: u32) -> [u8; 6]
    ensures { result ≡ six_digits n }
{
    [
        last_digit(n / 100_000),
        last_digit(n / 10_000),
        last_digit(n / 1_000),
        last_digit(n / 100),
        last_digit(n / 10),
        last_digit(n),
    ]
}

fn last_digit(n: u32) -> u8
    ensures { result ≡ 48 + n % 10 }
{
    b'0' + (n % 10) as u8
}
