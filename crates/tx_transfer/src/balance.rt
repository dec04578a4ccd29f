//! Balances, and what a transfer makes of two of them.
ghost use Rattle.std.specs.Prelude.{◌≡◌, ◌<◌, ◌+◌, true, decimal, IfOk, IfErr, IfSome};
ghost use Rattle.std.specs.Char.{is_ascii_digit};
ghost use Rattle.std.specs.List.{list_all};
ghost use Rattle.std.specs.Str.Parse.{digits_value};
ghost use Rattle.tx_types.specs.declared.fault.Fault.TheVariants as fault;
ghost use Rattle.tx_transfer.specs.Balances.{is_balance, balance_of, after_transfer};

use itoa::Buffer;
use std::alloc::Global;
use tx_types::{Fault, Value};

/// The most decimal digits of a balance.
pub const MAX_DIGITS: usize = 15;

/// One more than the greatest balance.
pub const BALANCES: u64 = 1_000_000_000_000_000;

// Whether each byte is a decimal digit.
fn are_digits(text: &[u8]) -> bool
    ensures { result ≡ list_all is_ascii_digit text.now }
{
    text.iter().all(|byte| byte.is_ascii_digit())
}

// Whether this is a text of 1 to 15 decimal digits.
fn is_balance(text: &[u8]) -> bool
    ensures { result ≡ is_balance text.now }
{
    let count = text.len();
    0 < count && count <= MAX_DIGITS && are_digits(text)
}

// The number that its digits say.
fn number_of(text: &[u8]) -> u64
    requires { is_balance text.now ≡ true }
    ensures value { result ≡ digits_value 10 text.now }
    ensures most { result < BALANCES }
{
    let mut number: u64 = 0;
    for byte in text {
        number = number * 10 + u64::from(*byte - b'0');
    }
    number
}

/// The balance that a value says: a text of 1 to 15 decimal digits says its number, and
/// anything else 0.
pub fn balance_of(value: &[u8]) -> u64
    ensures value { result ≡ balance_of value.now }
    ensures most { result < BALANCES }
{
    if is_balance(value) {
        number_of(value)
    } else {
        0
    }
}

/// What a transfer leaves of the balances of its two keys. None where the first has less than the
/// amount, or the second would have more than 15 digits.
pub fn after_transfer(from: u64, to: u64, amount: u64) -> Option<(u64, u64)>
    requires { (from < BALANCES) × (to < BALANCES) }
    ensures value { result ≡ after_transfer from to amount }
    ensures sum { IfSome result (λ left. left.0 + left.1 ≡ from + to) }
    ensures most { IfSome result (λ left. (left.0 < BALANCES) × (left.1 < BALANCES)) }
{
    if amount <= from && to + amount < BALANCES {
        Some((from - amount, to + amount))
    } else {
        None
    }
}

/// The text of a balance, which says it.
pub fn value_of(alloc: Global, balance: u64) -> Result<Value, Fault>
    requires { balance < BALANCES }
    ensures ok { IfOk result (λ value. value ≡ decimal balance) }
    ensures says { IfOk result (λ value. balance_of value ≡ balance) }
    ensures err { IfErr result (λ e. e ≡ fault.OutOfMemory) }
{
    let mut text = Buffer::new();
    match Value::new(alloc, text.format(balance).as_bytes()) {
        Ok(value) => Ok(value),
        Err(_) => Err(Fault::OutOfMemory),
    }
}
