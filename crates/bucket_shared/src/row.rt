// The rows of symbols.
ghost use Rattle.std.specs.Prelude.{◌≡◌, ◌<◌};
ghost use Rattle.bucket_shared.specs.Rows.{row};

use key_kind::Name;

/// The row of a symbol: the sum of its bytes modulo 256.
pub(crate) fn row_of(symbol: &Name) -> u32
    ensures row { result ≡ row symbol.now }
    ensures bound { result < 256 }
{
    let mut sum: u32 = 0;
    for byte in symbol.text().as_bytes() {
        sum = (sum + u32::from(*byte)) % 256;
    }
    sum
}
