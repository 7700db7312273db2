// Whether the sheets that a scanning firm delivers are the cover of a window (document 02, j).
//
// Where a sheet stands in the cover follows from its row and its column. So there is a mark for each place of the cover: one pass over the
// delivery sets them, up to the first bad place, and one over the cover finds the first that is not set.
#![tactic(auto)]

ghost use Rattle.std.specs.Prelude.{◌≡◌};
ghost use Rattle.refusal.specs.Numbers.{paper};
ghost use Rattle.delivery.specs.Delivery.{check_delivery};

use crate::cover::Cover;
use division::Edges;
use division::cover::block_in;
use refusal::Refusal;

mod cover;
mod place;

// Whether sheets are the cover of a window at a scale, and of how many: each sheet of it once, in any order, and nothing else.
pub fn check_delivery(scale: u32, window: Edges, sheets: &[u32]) -> Result<u32, Refusal>
    ensures { paper result ≡ check_delivery scale window sheets.now }
{
    let block = block_in(scale, window)?;
    let cover = Cover::of(scale, block);
    // most covers are small, and few marks are sooner cleared than all
    if cover.count() <= 64 {
        return cover.compared::<64>(sheets);
    }
    cover.compared::<4_096>(sheets)
}
