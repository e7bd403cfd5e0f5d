//! Counts, written without a sign.
ghost use Rattle.std.specs.Prelude.{◌≡◌};
ghost use Rattle.std.specs.List.{list_all};
ghost use Rattle.std.specs.Char.{is_ascii_digit};
ghost use Rattle.script_lang.specs.Said.{count_in};

use fact_model::read_number;

/// Reads one or more decimal digits as a number below 2^64.
pub fn read_count(bytes: &[u8]) -> Option<u64>
    ensures { result ≡ count_in bytes.now }
{
    if !all_digits(bytes) {
        return None;
    }
    match read_number(bytes) {
        Some(count) => u64::try_from(count).ok(),
        None => None,
    }
}

fn all_digits(bytes: &[u8]) -> bool
    ensures { result ≡ list_all is_ascii_digit bytes.now }
{
    bytes.iter().all(|byte| byte.is_ascii_digit())
}
