// The class report (document 02, A.4).
#![tactic(auto)]

ghost use Rattle.std.specs.Prelude.{◌≡◌, ◌^◌, ◌≤◌, length};
ghost use Rattle.buffers.specs.Positions.{at, Below};
ghost use Rattle.checks.specs.Answers.{reading, outcome};
ghost use Rattle.text.specs.Text.{HasRoom, Written};
ghost use Rattle.lesson_samples.specs.Lesson.{lesson, ending_verdict};
ghost use Rattle.lesson_samples.specs.Call.{sample_buffers, held, SameBuffers, after_lesson, with_text};
ghost use Rattle.lesson_samples.specs.Steps.{HasSampleRoom};
ghost use Rattle.report.specs.Report.{report_text, report_room, report_written};
ghost use Rattle.report.specs.Counted.{tallied, reading_text};

use checks::Refusal;
use lesson_file::Cursor;
use lesson_samples::Buffers;
use residue::Word;
use tally::Tally;
use text::Writer;

// The room that suffices for the report of every file.
const REPORT_ROOM: usize = 1200;

// The samples of a file, counted, and whether and why it is refused.
#[derive(Drop)]
struct Reading {
    tally: Tally,
    ended: Result<(), Refusal>,
}

// Counts the samples of the file, up to its end or the first refusal. No text is written here.
fn read_samples(file: &[u8], buffers: &mut Buffers<'_>) -> Reading
    requires { HasSampleRoom buffers.old }
    ensures { (held buffers.new ≡ after_lesson (lesson file.now) (held buffers.old)) × SameBuffers buffers.old buffers.new × (result.tally ≡ tallied (lesson file.now).samples) × (reading result.ended ≡ ending_verdict (lesson file.now).ending) }
{
    let mut cursor = Cursor { at: 0 };
    let mut tally = Tally::empty();
    while cursor.at < file.len() {
        let sampled = match lesson_samples::next_sample(file, cursor, buffers) {
            Ok(sampled) => sampled,
            Err(refusal) => {
                return Reading {
                    tally,
                    ended: Err(refusal),
                };
            }
        };
        tally.add(sampled.parameters.k, sampled.value);
        cursor = sampled.next;
    }
    Reading {
        tally,
        ended: Ok(()),
    }
}

// What was counted, or the refusal's line alone.
fn write_reading(text: &mut Writer<'_>, counted: Reading)
    requires { (counted.tally.k ≤ 16) × Below (2 ^ 31) 33 (at counted.tally.counts) × HasRoom text.old (reading_text counted.tally (reading counted.ended)) }
    ensures { Written text.old (reading_text counted.tally (reading counted.ended)) text.new }
{
    match counted.ended {
        Ok(()) => report_lines::write_tally(text, counted.tally),
        Err(refusal) => lesson_samples::write_refusal(text, refusal),
    }
}

// The whole report.
fn write_report(file: &[u8], buffers: &mut Buffers<'_>, text: &mut Writer<'_>)
    requires { HasSampleRoom buffers.old × HasRoom text.old (report_text file.now) }
    ensures { (held buffers.new ≡ after_lesson (lesson file.now) (held buffers.old)) × SameBuffers buffers.old buffers.new × Written text.old (report_text file.now) text.new }
{
    let counted = read_samples(file, buffers);
    write_reading(text, counted);
}

// Writes the report of a lesson file in front of `text`, and answers its length; what lies behind it keeps its content. The words of each RW
// fill the word buffer from the front, and each sample's shares the output.
// Refuses 8 (fewer than 1,792 words); 10 (fewer than 8 output positions, or fewer than 1,200 text bytes); 11 (fewer than 8 work positions). What is
// wrong with the file is said in the text.
pub fn write_text(
    file: &[u8],
    words: &mut [Word],
    out: &mut [Word],
    work: &mut [Word],
    text: &mut [u8],
) -> Result<usize, Refusal>
    ensures { outcome result (with_text (sample_buffers words.new out.new work.new) text.new) ≡ report_written file.now words.old out.old work.old text.old }
{
    lesson_samples::check_buffers(REPORT_ROOM, words.len(), out.len(), work.len(), text.len())?;
    let mut buffers = Buffers { words, out, work };
    let mut writer = Writer { text, end: 0 };
    write_report(file, &mut buffers, &mut writer);
    Ok(writer.end)
}
