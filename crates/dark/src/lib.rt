// Dark floc on light water: the dark map call and the combined map call. Dark maps are the light ones of the reversed picture, whose bytes stand in the
// lent residue map until the maps are made of the pairs; so the calls need no memory beyond what they are lent. What they are told and lent comes one
// by one, as the C interface and the definitions name it.
#![tactic(auto)]

ghost use Rattle.std.specs.Prelude.{ℕ, ◌≡◌, length, get_or};
ghost use Rattle.sets.specs.Sets.{table};
ghost use Rattle.calls.specs.Judging.{verdict_numbers};
ghost use Rattle.calls.specs.Calls.{map_call, map_verdict, map_workspace, map_residue, map_index};
ghost use Rattle.calls.specs.Reversed.{reversed, reversed_call};
ghost use Rattle.calls.specs.Combined.{contrast_of, combined_verdict, combined_workspace, combined_residue, combined_index, combined_contrast};
ghost use Rattle.map_passes.specs.Settle.{total_in};
ghost use Rattle.map_passes.specs.Passes.{pair_for, Holdable};
ghost use Rattle.dark.specs.Merging.{merged};

use calls::Kind;
use causes::Cause;
use grid::Grid;

// The reversed picture: 255 less each grey. By position, since after a `zip` over `iter_mut` nothing is known of what was written.
fn reverse(picture: &[u8], output: &mut [u8])
    requires { length output.old ≡ length picture.now }
    ensures { output.new ≡ reversed picture.now }
{
    for (p, byte) in output.iter_mut().enumerate() {
        *byte = 255 - picture[p];
    }
}

// The contrast of a light pair and a dark one: the light total if it is more, else the negative of the dark one. Both are at hand, so nothing branches.
fn contrast(light: u32, dark: u32) -> i16
    ensures { result ≡ contrast_of (total_in light) (total_in dark) }
{
    let bright = (light % 256) as i16;
    let dim = -((dark % 256) as i16);
    if dark % 256 < light % 256 {
        bright
    } else {
        dim
    }
}

// Every pixel has the light pair, and takes the dark one of its node unless the light total is more. In the same pass it gets its contrast.
fn merge(n: usize, ws: &[u32], pairs: &mut [u16], contrasts: &mut [i16])
    requires holdable { Holdable n ws.now (length pairs.old) }
    requires contrasts_len { length contrasts.old ≡ n }
    ensures pairs { pairs.new ≡ table n (λ (q : ℕ). merged (get_or pairs.old q 0) (pair_for n ws.now q)) }
    ensures contrasts { contrasts.new ≡
        table n (λ (q : ℕ). contrast_of (total_in (get_or pairs.old q 0)) (total_in (pair_for n ws.now q))) }
{
    for (p, pair) in pairs.iter_mut().enumerate() {
        let light = u32::from(*pair);
        let dark = map_passes::pair_of(n, ws, p);
        *pair = map_passes::better(light, dark) as u16;
        contrasts[p] = contrast(light, dark);
    }
}

// The map call with one step more: the picture that is sized is the reversed one, in the lent residue map. So two calls stand, here and in `residues`.
// The residue map and the index map of dark floc: the light ones of 255 less each grey. The workspace holds the tree record of the reversed picture.
#[tactic(auto, using(calls::proofs::Reversed::length_reversed), unfolding(calls::specs::Calls::map_workspace, calls::specs::Calls::map_residue, calls::specs::Calls::map_index))]
pub fn dark_map(
    picture: &[u8],
    grid: Grid,
    kind: Kind,
    steps: &[u32],
    gap: u32,
    workspace: &mut [u32],
    residue: &mut [u8],
    index: &mut [u16],
) -> Result<(), Cause>
    ensures answer { verdict_numbers result ≡
        verdict_numbers (map_verdict (reversed_call (map_call picture.now grid kind steps.now gap workspace.old residue.old index.old))) }
    ensures workspace { workspace.new ≡ map_workspace (reversed_call (map_call picture.now grid kind steps.now gap workspace.old residue.old index.old)) }
    ensures residue { residue.new ≡ map_residue (reversed_call (map_call picture.now grid kind steps.now gap workspace.old residue.old index.old)) }
    ensures index { index.new ≡ map_index (reversed_call (map_call picture.now grid kind steps.now gap workspace.old residue.old index.old)) }
{
    let bytes = picture.len();
    calls::judge_sizing(
        grid,
        bytes,
        kind,
        steps,
        gap,
        workspace.len(),
        residue.len(),
        index.len(),
    )?;
    reverse(picture, residue);
    sizing::size(residue, grid, kind, steps, gap, workspace, index);
    building::write_whole(residue, workspace);
    map_passes::unpack(residue, index);
    Ok(())
}

// Light and dark floc together: at each pixel the residue of the side where it is larger, its index, and the contrast. The picture is sized, and then
// the reversed picture, whose tree record the workspace holds.
#[tactic(auto, unfolding(calls::specs::Judging::also, calls::specs::Combined::combined_workspace, calls::specs::Combined::combined_residue, calls::specs::Combined::combined_index, calls::specs::Combined::combined_contrast))]
pub fn combined_map(
    picture: &[u8],
    grid: Grid,
    kind: Kind,
    steps: &[u32],
    gap: u32,
    workspace: &mut [u32],
    residue: &mut [u8],
    index: &mut [u16],
    contrast: &mut [i16],
) -> Result<(), Cause>
    ensures answer { verdict_numbers result ≡
        verdict_numbers (combined_verdict (map_call picture.now grid kind steps.now gap workspace.old residue.old index.old) contrast.old) }
    ensures workspace { workspace.new ≡
        combined_workspace (map_call picture.now grid kind steps.now gap workspace.old residue.old index.old) contrast.old }
    ensures residue { residue.new ≡
        combined_residue (map_call picture.now grid kind steps.now gap workspace.old residue.old index.old) contrast.old }
    ensures index { index.new ≡
        combined_index (map_call picture.now grid kind steps.now gap workspace.old residue.old index.old) contrast.old }
    ensures contrast { contrast.new ≡
        combined_contrast (map_call picture.now grid kind steps.now gap workspace.old residue.old index.old) contrast.old }
{
    calls::judge_sizing(
        grid,
        picture.len(),
        kind,
        steps,
        gap,
        workspace.len(),
        residue.len(),
        index.len(),
    )?;
    calls::check(calls::entry_each(grid, contrast.len()), Cause::Output)?;
    sizing::size(picture, grid, kind, steps, gap, workspace, index);
    reverse(picture, residue);
    sizing::settle(residue, grid, kind, steps, gap, workspace);
    merge(residue.len(), workspace, index, contrast);
    building::write_whole(residue, workspace);
    map_passes::unpack(residue, index);
    Ok(())
}
