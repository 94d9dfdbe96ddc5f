// Rows and columns of a 64 x 64 bit matrix exchanged, in six rounds.
#![tactic(auto)]

ghost use Rattle.std.specs.Prelude.{◌≡◌, ◌-◌, ◌^◌, false, ◌<◌};
ghost use Rattle.transpose.specs.Transposed.{transposed};
ghost use Rattle.transpose.specs.Rounds.{unfit, shuffled, blended};

// The columns of m from x, the others from y.
fn blend(m: u64, x: u64, y: u64) -> u64
    ensures { result ≡ blended m x y }
{
    (x & m) | (y & !m)
}

// One round: rows i and i + 32 give rows 2 i and 2 i + 1. The highest bit of the row's number becomes bit d of the column's, and that bit the lowest of the row's.
// m has the columns without bit d. The new rows are written by index: of what chunks_mut lent a proof knows no element afterwards.
fn round(rows: &[u64; 64], out: &mut [u64; 64], d: u64, m: u64)
    requires { (d < 64) × (unfit d m (2 ^ 64 - 1 - m) ≡ false) }
    ensures { out.new ≡ shuffled d rows.now }
{
    let cells: &mut [u64] = out;
    let (lows, highs) = rows.split_at(32);
    for (i, (lo, hi)) in lows.iter().zip(highs).enumerate() {
        cells[2 * i] = blend(m, *lo, hi << d);
        cells[2 * i + 1] = blend(m, lo >> d, *hi);
    }
}

// Row i of the result has member r exactly where row r has member i.
pub fn transpose(mut rows: [u64; 64]) -> [u64; 64]
    ensures { result ≡ transposed rows }
{
    let mut other = [0u64; 64];
    round(&rows, &mut other, 32, 0x00000000FFFFFFFF);
    round(&other, &mut rows, 16, 0x0000FFFF0000FFFF);
    round(&rows, &mut other, 8, 0x00FF00FF00FF00FF);
    round(&other, &mut rows, 4, 0x0F0F0F0F0F0F0F0F);
    round(&rows, &mut other, 2, 0x3333333333333333);
    round(&other, &mut rows, 1, 0x5555555555555555);
    rows
}
