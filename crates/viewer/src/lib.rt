// The viewer: a row of the light residue map or of the dark one, uncopied. What a call names comes one by one, as the C interface has it.
#![tactic(auto)]

ghost use Rattle.std.specs.Prelude.{◌≡◌};
ghost use Rattle.calls.specs.Judging.{verdict_of};
ghost use Rattle.viewer.specs.View.{view_call, in_view, viewing_tests, viewed_part, viewed, viewed_numbers};

use causes::Cause;
use grid::Grid;

// Whether a picture has such a row, and there is such a side. A side stays its number, since whether there is such a one is part of this test.
#[tactic(auto, unfolding(crate::specs::View::in_view))]
fn in_view(height: u32, row: u32, side: u32) -> bool
    ensures { result ≡ in_view height row side }
{
    row < height && (side == 1 || side == 2)
}

// The tests on a call, by the lengths of both maps. How many neighbours pixels have does not matter here.
#[tactic(auto, unfolding(calls::specs::Judging::also))]
fn judge(
    light: usize,
    dark: usize,
    width: u32,
    height: u32,
    row: u32,
    side: u32,
) -> Result<(), Cause>
    ensures { result ≡ verdict_of (viewing_tests light dark width height row side) }
{
    let grid = Grid {
        width,
        height,
        neighbours: 4,
    };
    calls::check(causes::fit(width, height), Cause::Sides)?;
    calls::check(calls::entry_each(grid, light), Cause::Output)?;
    calls::check(calls::entry_each(grid, dark), Cause::Output)?;
    calls::check(in_view(height, row, side), Cause::View)
}

// Where a row starts in the map of a side, or the cause. The side comes as its number, since one that is neither is refused last.
#[tactic(auto, unfolding(crate::specs::View::viewed))]
pub fn view_start(
    light: &[u8],
    dark: &[u8],
    width: u32,
    height: u32,
    row: u32,
    side: u32,
) -> Result<u32, Cause>
    ensures answer { viewed_numbers result ≡ viewed_numbers (viewed (view_call light.now dark.now width height row side)) }
{
    judge(light.len(), dark.len(), width, height, row, side)?;
    Ok(row * width)
}

// A row of the map of a side: a part of the lent slice itself, so nothing is copied; empty where the call is refused.
#[tactic(auto, unfolding(crate::specs::View::viewed_part))]
pub fn view_row<'a>(
    light: &'a [u8],
    dark: &'a [u8],
    width: u32,
    height: u32,
    row: u32,
    side: u32,
) -> &'a [u8]
    ensures part { result.now ≡ viewed_part (view_call light.now dark.now width height row side) }
{
    let Ok(()) = judge(light.len(), dark.len(), width, height, row, side) else {
        return &light[..0];
    };
    let start = (row * width) as usize;
    let end = start + width as usize;
    if side == 1 {
        &light[start..end]
    } else {
        &dark[start..end]
    }
}
