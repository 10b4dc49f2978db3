//! The rows of a cell: the one list of their widths, and where each row stands.
ghost use Rattle.std.specs.Prelude.{◌≡◌, ◌≤◌, length, sum, if◌then◌else◌, Some, None};
ghost use Rattle.format.specs.Rows.{row_widths, row_count, bin_width, cell_size, cells_size, is_row, row_in};

use crate::sizes::Sizes;

/// The bytes that each row of a cell has for one bin, in order: the self spectra of antennas 1 to
/// 3, the cross spectra 1-2, 1-3 and 2-3, and the quality where it is present.
const ROW_WIDTHS: [u8; 7] = [4, 4, 4, 8, 8, 8, 4];

/// The bytes that some rows have for one bin.
fn sum_of(widths: &[u8]) -> usize
    requires { length widths.now ≤ 7 }
    ensures { result ≡ sum widths.now }
{
    widths.iter().map(|&width| usize::from(width)).sum()
}

impl Sizes {
    /// The bytes that each row of a cell has for one bin, in order.
    fn row_widths(&self) -> &'static [u8]
        ensures { result.now ≡ row_widths self.now }
    {
        if self.quality {
            &ROW_WIDTHS
        } else {
            &ROW_WIDTHS[..6]
        }
    }

    /// How many rows a cell has.
    pub fn row_count(&self) -> usize
        ensures { result ≡ row_count self.now }
    {
        self.row_widths().len()
    }

    /// The bytes that a cell has for each bin.
    pub fn bin_width(&self) -> usize
        ensures { result ≡ bin_width self.now }
    {
        sum_of(self.row_widths())
    }

    /// The bytes of a cell.
    pub fn cell_size(&self) -> usize
        ensures { result ≡ cell_size self.now }
    {
        self.bins as usize * self.bin_width()
    }

    /// The bytes of all cells, in 128 bits: any header may ask for them.
    pub fn cells_size(&self) -> u128
        ensures { result ≡ cells_size self.now }
    {
        self.ranges as u128 * self.cell_size() as u128
    }

    /// Where a row of a cell begins in the cells, in 128 bits, and how many bytes it has; none
    /// where there is no such cell or row.
    pub fn row_in(&self, cell: usize, row: usize) -> Option<(u128, usize)>
        ensures { result
            ≡ (if is_row self.now cell row then Some (row_in self.now cell row) else None) }
    {
        let widths = self.row_widths();
        if !(1..=self.ranges as usize).contains(&cell) || !(1..=widths.len()).contains(&row) {
            return None;
        }
        let bins = self.bins as usize;
        let before = bins * sum_of(&widths[..row - 1]);
        let place = (cell - 1) as u128 * self.cell_size() as u128 + before as u128;
        Some((place, bins * usize::from(widths[row - 1])))
    }
}
