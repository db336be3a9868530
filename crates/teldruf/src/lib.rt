// The C interface. Each function hands lent memory on to the call that it is named for, and answers 64 bits: the value where the call is
// accepted, 0 for "done", else the cause's number times 2^32. include/teldruf.h declares them, and their
// parameters and numbers are its.
#![tactic(auto)]

ghost use Rattle.std.specs.Prelude.{◌≡◌, length};
ghost use Rattle.pgm_read.specs.Read.{read_answer, found_numbers};
ghost use Rattle.pgm_write.specs.Write.{write_answer, written_numbers, buffer_after};
ghost use Rattle.calls.specs.Judging.{verdict_numbers};
ghost use Rattle.calls.specs.Calls.{built, built_numbers, build_workspace, open_verdict, open_workspace, open_output};
ghost use Rattle.calls.specs.Calls.{map_verdict, map_workspace, map_residue, map_index};
ghost use Rattle.calls.specs.Reversed.{reversed_call};
ghost use Rattle.calls.specs.Combined.{combined_verdict, combined_workspace, combined_residue, combined_index, combined_contrast};
ghost use Rattle.viewer.specs.View.{view_call, viewed, viewed_numbers};
ghost use Rattle.codes.specs.Codes.{code_of, number_code, head_with};
ghost use Rattle.teldruf.specs.Parameters.{build_by, open_by, open_triple_by, map_by, triples_by};

use codes::refused;
use grid::{Grid, Triple};

// Reads the picture of a number, from 1 up, of a PGM file: the four words of the head are its width, height, maximum and where its
// raster starts in the file.
#[unsafe(no_mangle)]
pub extern "C" fn teldruf_read_pgm(file: &[u8], number: u64, head: &mut [u64; 4]) -> u64
    ensures answer { result ≡ number_code (found_numbers (read_answer file.now number)) }
    ensures head { head.new ≡ head_with (read_answer file.now number) head.old }
{
    match pgm::read(file, number as usize) {
        Ok(picture) => {
            head[0] = u64::from(picture.width);
            head[1] = u64::from(picture.height);
            head[2] = u64::from(picture.maximum);
            head[3] = picture.start as u64;
            0
        }
        Err(cause) => refused(cause),
    }
}

// Writes a picture's PGM file into the buffer, and answers the number of its bytes.
#[unsafe(no_mangle)]
pub extern "C" fn teldruf_write_pgm(
    picture: &[u8],
    width: u32,
    height: u32,
    maximum: u32,
    buffer: &mut [u8],
) -> u64
    ensures answer { result ≡ code_of (written_numbers (write_answer picture.now width height maximum (length buffer.old))) }
    ensures buffer { buffer.new ≡ buffer_after picture.now width height maximum buffer.old }
{
    match pgm::write(picture, width, height, maximum, buffer) {
        Ok(total) => total as u64,
        Err(cause) => refused(cause),
    }
}

// Builds the max-tree of a picture in the workspace, and answers the number of nodes.
#[unsafe(no_mangle)]
pub extern "C" fn teldruf_build(
    picture: &[u8],
    width: u32,
    height: u32,
    attribute: u32,
    neighbours: u32,
    workspace: &mut [u32],
) -> u64
    ensures answer { result ≡ code_of (built_numbers (built (build_by picture.now width height attribute neighbours workspace.old))) }
    ensures workspace { workspace.new ≡ build_workspace (build_by picture.now width height attribute neighbours workspace.old) }
{
    let grid = Grid {
        width,
        height,
        neighbours,
    };
    codes::value(max_tree::build(picture, grid, attribute, workspace))
}

// Opens a picture at a threshold into the output.
#[unsafe(no_mangle)]
pub extern "C" fn teldruf_open(
    picture: &[u8],
    width: u32,
    height: u32,
    attribute: u32,
    neighbours: u32,
    threshold: u32,
    workspace: &mut [u32],
    output: &mut [u8],
) -> u64
    ensures answer { result ≡ code_of (verdict_numbers (open_verdict (open_by picture.now width height attribute neighbours threshold workspace.old output.old))) }
    ensures workspace { workspace.new ≡ open_workspace (open_by picture.now width height attribute neighbours threshold workspace.old output.old) }
    ensures output { output.new ≡ open_output (open_by picture.now width height attribute neighbours threshold workspace.old output.old) }
{
    let grid = Grid {
        width,
        height,
        neighbours,
    };
    codes::done(openings::open(
        picture,
        grid,
        calls::Step::Threshold(attribute, threshold),
        workspace,
        output,
    ))
}

// Opens a picture by a triple into the output: what stays has the area, so many rows and so many columns or more.
#[unsafe(no_mangle)]
pub extern "C" fn teldruf_open_triple(
    picture: &[u8],
    width: u32,
    height: u32,
    neighbours: u32,
    area: u32,
    rows: u32,
    columns: u32,
    workspace: &mut [u32],
    output: &mut [u8],
) -> u64
    ensures answer { result ≡ code_of (verdict_numbers (open_verdict (open_triple_by picture.now width height neighbours area rows columns workspace.old output.old))) }
    ensures workspace { workspace.new ≡ open_workspace (open_triple_by picture.now width height neighbours area rows columns workspace.old output.old) }
    ensures output { output.new ≡ open_output (open_triple_by picture.now width height neighbours area rows columns workspace.old output.old) }
{
    let grid = Grid {
        width,
        height,
        neighbours,
    };
    codes::done(openings::open(
        picture,
        grid,
        calls::Step::Three(Triple {
            area,
            height: rows,
            width: columns,
        }),
        workspace,
        output,
    ))
}

// Writes the residue map and the index map of a picture for a list of steps, whose residues a gap joins.
#[unsafe(no_mangle)]
pub extern "C" fn teldruf_map(
    picture: &[u8],
    width: u32,
    height: u32,
    attribute: u32,
    neighbours: u32,
    steps: &[u32],
    gap: u32,
    workspace: &mut [u32],
    residue: &mut [u8],
    index: &mut [u16],
) -> u64
    ensures answer { result ≡ code_of (verdict_numbers (map_verdict (map_by picture.now width height attribute neighbours steps.now gap workspace.old residue.old index.old))) }
    ensures workspace { workspace.new ≡ map_workspace (map_by picture.now width height attribute neighbours steps.now gap workspace.old residue.old index.old) }
    ensures residue { residue.new ≡ map_residue (map_by picture.now width height attribute neighbours steps.now gap workspace.old residue.old index.old) }
    ensures index { index.new ≡ map_index (map_by picture.now width height attribute neighbours steps.now gap workspace.old residue.old index.old) }
{
    let grid = Grid {
        width,
        height,
        neighbours,
    };
    codes::done(residues::map(
        picture,
        grid,
        calls::Kind::Thresholds(attribute),
        steps,
        gap,
        workspace,
        residue,
        index,
    ))
}

// Writes the residue map and the index map of a picture for a list of triples, three words to a step.
#[unsafe(no_mangle)]
pub extern "C" fn teldruf_map_triples(
    picture: &[u8],
    width: u32,
    height: u32,
    neighbours: u32,
    steps: &[u32],
    gap: u32,
    workspace: &mut [u32],
    residue: &mut [u8],
    index: &mut [u16],
) -> u64
    ensures answer { result ≡ code_of (verdict_numbers (map_verdict (triples_by picture.now width height neighbours steps.now gap workspace.old residue.old index.old))) }
    ensures workspace { workspace.new ≡ map_workspace (triples_by picture.now width height neighbours steps.now gap workspace.old residue.old index.old) }
    ensures residue { residue.new ≡ map_residue (triples_by picture.now width height neighbours steps.now gap workspace.old residue.old index.old) }
    ensures index { index.new ≡ map_index (triples_by picture.now width height neighbours steps.now gap workspace.old residue.old index.old) }
{
    let grid = Grid {
        width,
        height,
        neighbours,
    };
    codes::done(residues::map(
        picture,
        grid,
        calls::Kind::Triples,
        steps,
        gap,
        workspace,
        residue,
        index,
    ))
}

// Writes the residue map and the index map of dark floc: those of the reversed picture, 255 less each grey.
#[unsafe(no_mangle)]
pub extern "C" fn teldruf_dark_map(
    picture: &[u8],
    width: u32,
    height: u32,
    attribute: u32,
    neighbours: u32,
    steps: &[u32],
    gap: u32,
    workspace: &mut [u32],
    residue: &mut [u8],
    index: &mut [u16],
) -> u64
    ensures answer { result ≡
        code_of (verdict_numbers (map_verdict (reversed_call (map_by picture.now width height attribute neighbours steps.now gap workspace.old residue.old index.old)))) }
    ensures workspace { workspace.new ≡
        map_workspace (reversed_call (map_by picture.now width height attribute neighbours steps.now gap workspace.old residue.old index.old)) }
    ensures residue { residue.new ≡
        map_residue (reversed_call (map_by picture.now width height attribute neighbours steps.now gap workspace.old residue.old index.old)) }
    ensures index { index.new ≡
        map_index (reversed_call (map_by picture.now width height attribute neighbours steps.now gap workspace.old residue.old index.old)) }
{
    let grid = Grid {
        width,
        height,
        neighbours,
    };
    codes::done(dark::dark_map(
        picture,
        grid,
        calls::Kind::Thresholds(attribute),
        steps,
        gap,
        workspace,
        residue,
        index,
    ))
}

// Writes those of dark floc for a list of triples.
#[unsafe(no_mangle)]
pub extern "C" fn teldruf_dark_map_triples(
    picture: &[u8],
    width: u32,
    height: u32,
    neighbours: u32,
    steps: &[u32],
    gap: u32,
    workspace: &mut [u32],
    residue: &mut [u8],
    index: &mut [u16],
) -> u64
    ensures answer { result ≡
        code_of (verdict_numbers (map_verdict (reversed_call (triples_by picture.now width height neighbours steps.now gap workspace.old residue.old index.old)))) }
    ensures workspace { workspace.new ≡
        map_workspace (reversed_call (triples_by picture.now width height neighbours steps.now gap workspace.old residue.old index.old)) }
    ensures residue { residue.new ≡
        map_residue (reversed_call (triples_by picture.now width height neighbours steps.now gap workspace.old residue.old index.old)) }
    ensures index { index.new ≡
        map_index (reversed_call (triples_by picture.now width height neighbours steps.now gap workspace.old residue.old index.old)) }
{
    let grid = Grid {
        width,
        height,
        neighbours,
    };
    codes::done(dark::dark_map(
        picture,
        grid,
        calls::Kind::Triples,
        steps,
        gap,
        workspace,
        residue,
        index,
    ))
}

// Writes the residue map, the index map and the contrast map of light and dark floc together.
#[unsafe(no_mangle)]
pub extern "C" fn teldruf_combined_map(
    picture: &[u8],
    width: u32,
    height: u32,
    attribute: u32,
    neighbours: u32,
    steps: &[u32],
    gap: u32,
    workspace: &mut [u32],
    residue: &mut [u8],
    index: &mut [u16],
    contrast: &mut [i16],
) -> u64
    ensures answer { result ≡ code_of (verdict_numbers
        (combined_verdict (map_by picture.now width height attribute neighbours steps.now gap workspace.old residue.old index.old) contrast.old)) }
    ensures workspace { workspace.new ≡
        combined_workspace (map_by picture.now width height attribute neighbours steps.now gap workspace.old residue.old index.old) contrast.old }
    ensures residue { residue.new ≡
        combined_residue (map_by picture.now width height attribute neighbours steps.now gap workspace.old residue.old index.old) contrast.old }
    ensures index { index.new ≡
        combined_index (map_by picture.now width height attribute neighbours steps.now gap workspace.old residue.old index.old) contrast.old }
    ensures contrast { contrast.new ≡
        combined_contrast (map_by picture.now width height attribute neighbours steps.now gap workspace.old residue.old index.old) contrast.old }
{
    let grid = Grid {
        width,
        height,
        neighbours,
    };
    codes::done(dark::combined_map(
        picture,
        grid,
        calls::Kind::Thresholds(attribute),
        steps,
        gap,
        workspace,
        residue,
        index,
        contrast,
    ))
}

// Writes those of light and dark floc together, with the contrast map, for a list of triples.
#[unsafe(no_mangle)]
pub extern "C" fn teldruf_combined_map_triples(
    picture: &[u8],
    width: u32,
    height: u32,
    neighbours: u32,
    steps: &[u32],
    gap: u32,
    workspace: &mut [u32],
    residue: &mut [u8],
    index: &mut [u16],
    contrast: &mut [i16],
) -> u64
    ensures answer { result ≡ code_of (verdict_numbers
        (combined_verdict (triples_by picture.now width height neighbours steps.now gap workspace.old residue.old index.old) contrast.old)) }
    ensures workspace { workspace.new ≡
        combined_workspace (triples_by picture.now width height neighbours steps.now gap workspace.old residue.old index.old) contrast.old }
    ensures residue { residue.new ≡
        combined_residue (triples_by picture.now width height neighbours steps.now gap workspace.old residue.old index.old) contrast.old }
    ensures index { index.new ≡
        combined_index (triples_by picture.now width height neighbours steps.now gap workspace.old residue.old index.old) contrast.old }
    ensures contrast { contrast.new ≡
        combined_contrast (triples_by picture.now width height neighbours steps.now gap workspace.old residue.old index.old) contrast.old }
{
    let grid = Grid {
        width,
        height,
        neighbours,
    };
    codes::done(dark::combined_map(
        picture,
        grid,
        calls::Kind::Triples,
        steps,
        gap,
        workspace,
        residue,
        index,
        contrast,
    ))
}

// Answers where a row starts in the residue map of a side, 1 light or 2 dark. A host finds the row there, uncopied.
#[unsafe(no_mangle)]
pub extern "C" fn teldruf_view_row(
    light: &[u8],
    dark: &[u8],
    width: u32,
    height: u32,
    row: u32,
    side: u32,
) -> u64
    ensures answer { result ≡ code_of (viewed_numbers (viewed (view_call light.now dark.now width height row side))) }
{
    codes::value(viewer::view_start(light, dark, width, height, row, side))
}
