// The lines of the class report (document 02, A.4), by what was counted.
#![tactic(auto)]

ghost use Rattle.std.specs.Prelude.{◌≡◌, ◌∷◌, ◌^◌, ◌≤◌, ◌<◌};
ghost use Rattle.buffers.specs.Positions.{at, Below};
ghost use Rattle.pairs.specs.Pairs.{pairs};
ghost use Rattle.pairs.specs.Rows.{pair_row};
ghost use Rattle.tally.specs.Tally.{line_of, sample_at, lines_of};
ghost use Rattle.text.specs.Text.{decimal, signed, spaced, line, HasRoom, Written};
ghost use Rattle.report_lines.specs.Lines.{exact_fields, lines_text, last_line, tally_text};

use tally::Tally;
use text::Writer;

// The two exact numbers of a line, which a file with mixed k omits.
fn write_exact(out: &mut Writer<'_>, mixed: bool, k: usize, ways: usize)
    requires { (k ≤ 16) × HasRoom out.old (spaced (exact_fields mixed ways (4 ^ k))) }
    ensures { Written out.old (spaced (exact_fields mixed ways (4 ^ k))) out.new }
{
    if !mixed {
        out.field(ways);
        out.field(pairs::power_of_four(k));
    }
}

// The line of a sample: how many times it came, and how many pairs of strings give it.
fn write_line(out: &mut Writer<'_>, sample: i32, times: usize, mixed: bool, k: usize, ways: usize)
    requires { (k ≤ 16) × HasRoom out.old (line (signed sample) (decimal times ∷ exact_fields mixed ways (4 ^ k))) }
    ensures { Written out.old (line (signed sample) (decimal times ∷ exact_fields mixed ways (4 ^ k))) out.new }
{
    out.signed(sample);
    out.field(times);
    write_exact(out, mixed, k, ways);
    out.bytes(b"\n");
}

fn sample_at(e: usize) -> i32
    requires { e < 33 }
    ensures { result ≡ sample_at e }
{
    residue::difference(residue::from_u16(e as u16), 16)
}

// No line for a sample that does not occur.
fn write_counted(out: &mut Writer<'_>, e: usize, times: usize, mixed: bool, k: usize, ways: usize)
    requires { (e < 33) × (k ≤ 16) × (ways ≡ pairs k (sample_at e)) × HasRoom out.old (lines_text mixed k (line_of (sample_at e) times)) }
    ensures { Written out.old (lines_text mixed k (line_of (sample_at e) times)) out.new }
{
    if times != 0 {
        write_line(out, sample_at(e), times, mixed, k, ways);
    }
}

// From the lowest sample to the highest.
fn write_lines(out: &mut Writer<'_>, counts: &[u32; 33], row: &[u64; 35], mixed: bool, k: usize)
    requires { (k ≤ 16) × Below (2 ^ 31) 33 (at counts.now) × (row.now ≡ pair_row k) × HasRoom out.old (lines_text mixed k (lines_of 33 sample_at (at counts.now))) }
    ensures { Written out.old (lines_text mixed k (lines_of 33 sample_at (at counts.now))) out.new }
{
    // By the place of the sample, which its line and both lists need.
    for e in 0..33 {
        write_counted(out, e, counts[e] as usize, mixed, k, row[1 + e] as usize);
    }
}

fn write_last(out: &mut Writer<'_>, sum: i32, squares: usize, total: usize)
    requires { HasRoom out.old (last_line sum squares total) }
    ensures { Written out.old (last_line sum squares total) out.new }
{
    out.signed(sum);
    out.field(squares);
    out.field(total);
    out.bytes(b"\n");
}

// The text of what was counted.
pub fn write_tally(out: &mut Writer<'_>, tally: Tally)
    requires { (tally.k ≤ 16) × Below (2 ^ 31) 33 (at tally.counts) × HasRoom out.old (tally_text tally) }
    ensures { Written out.old (tally_text tally) out.new }
{
    let row = pairs::count_pairs(tally.k);
    write_lines(out, &tally.counts, &row, tally.mixed, tally.k);
    write_last(out, tally.sum, tally.squares as usize, tally.total as usize);
}
