// The text that the lesson program prints (document 01, 'Lesson files and the lesson program').
#![tactic(auto)]

mod lines;

ghost use Rattle.std.specs.Prelude.{◌≡◌, length};
ghost use Rattle.checks.specs.Answers.{outcome};
ghost use Rattle.text.specs.Text.{HasRoom, Written};
ghost use Rattle.lesson_samples.specs.Lesson.{lesson};
ghost use Rattle.lesson_samples.specs.Call.{sample_buffers, held, SameBuffers, after_lesson, with_text};
ghost use Rattle.lesson_samples.specs.Steps.{HasSampleRoom};
ghost use Rattle.lesson.specs.Text.{lesson_lines, lesson_text, text_room, text_written};

use checks::Refusal;
use lesson_file::Cursor;
use lesson_samples::Buffers;
use residue::Word;
use text::Writer;

// A line for each sample of the file, and one for a refusal.
fn write_samples(file: &[u8], buffers: &mut Buffers<'_>, text: &mut Writer<'_>)
    requires { HasSampleRoom buffers.old × HasRoom text.old (lesson_lines (lesson file.now)) }
    ensures { (held buffers.new ≡ after_lesson (lesson file.now) (held buffers.old)) × SameBuffers buffers.old buffers.new × Written text.old (lesson_lines (lesson file.now)) text.new }
{
    let mut cursor = Cursor { at: 0 };
    let mut number = 1;
    while cursor.at < file.len() {
        let sampled = match lesson_samples::next_sample(file, cursor, buffers) {
            Ok(sampled) => sampled,
            Err(refusal) => {
                lesson_samples::write_refusal(text, refusal);
                return;
            }
        };
        lines::write_line(text, number, sampled, buffers.shares(sampled.parameters.n));
        cursor = sampled.next;
        number += 1;
    }
}

// The whole text: a header, and then the samples.
fn write_lesson(file: &[u8], buffers: &mut Buffers<'_>, text: &mut Writer<'_>)
    requires { HasSampleRoom buffers.old × HasRoom text.old (lesson_text file.now) }
    ensures { (held buffers.new ≡ after_lesson (lesson file.now) (held buffers.old)) × SameBuffers buffers.old buffers.new × Written text.old (lesson_text file.now) text.new }
{
    text.bytes(b"no n k q used sample shares\n");
    write_samples(file, buffers, text);
}

// Room for the text of every file of this many bytes.
fn text_room(bytes: usize) -> usize
    ensures { result ≡ text_room bytes }
{
    if lesson_samples::FILE_LIMIT < bytes {
        45
    } else {
        3 * bytes + 45
    }
}

// Writes the text of a lesson file in front of `text`, and answers its length; what lies behind it keeps its content. The words of each RW
// fill the word buffer from the front, and each sample's shares the output.
// Refuses 8 (fewer than 1,792 words); 10 (fewer than 8 output positions, or fewer than 3 text bytes for each file byte and 45 more; 45 for a file
// of more than 60,000 bytes); 11 (fewer than 8 work positions). What is wrong with the file is said in the text.
pub fn write_text(
    file: &[u8],
    words: &mut [Word],
    out: &mut [Word],
    work: &mut [Word],
    text: &mut [u8],
) -> Result<usize, Refusal>
    ensures { outcome result (with_text (sample_buffers words.new out.new work.new) text.new) ≡ text_written file.now words.old out.old work.old text.old }
{
    let room = text_room(file.len());
    lesson_samples::check_buffers(room, words.len(), out.len(), work.len(), text.len())?;
    let mut buffers = Buffers { words, out, work };
    let mut writer = Writer { text, end: 0 };
    write_lesson(file, &mut buffers, &mut writer);
    Ok(writer.end)
}
