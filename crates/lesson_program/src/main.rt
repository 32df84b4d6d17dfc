// The lesson program (document 01, 'Lesson files and the lesson program'): a lesson file from standard input, its text to standard output.
#![tactic(auto)]

ghost use Rattle.std.specs.Prelude.{◌≡◌, List, ℕ, ◌≤◌, length, take, replicate};
ghost use Rattle.lesson.specs.Text.{lesson_text};
ghost use Rattle.lesson_samples.specs.Input.{Read};

use residue::Word;

// Puts the text of the whole input in front of `text`, and answers its length. A buffer with room for one byte past the limit is enough to know
// it. The library refuses no file: there is room for the text of each.
fn make_text(buffer: &[u8], count: usize, words: &mut [Word], text: &mut [u8]) -> usize
    requires past_limit { 60001 ≤ length buffer.now }
    requires in_buffer { count ≤ length buffer.now }
    requires zeros { words.old ≡ replicate 1792 0 }
    requires text_room { 180045 ≤ length text.old }
    ensures of_input { (input : List ℕ) → Read input buffer.now count → take result text.new ≡ lesson_text input }
    ensures in_text { result ≤ length text.new }
{
    let mut out: [Word; 8] = [0; 8];
    let mut work: [Word; 8] = [0; 8];
    lesson::write_text(&buffer[..count], words, &mut out, &mut work, text).unwrap_or(0)
}

// What `make_text` promises is proved; that the bytes read go to it, and its text to standard output, is these lines. Why a read failed is said
// after the text.
fn main(rt: HostRuntime) {
    let mut file = [0u8; 60001];
    let mut words: [Word; 1792] = [0; 1792];
    let mut text = [0u8; 180045];
    let input = streams::read_input(&mut rt.stdin(), &mut file);
    let length = make_text(&file, input.count, &mut words, &mut text);
    if let Err(error) = rt.write_all(&text[..length]) {
        streams::report_failure(&rt, "lesson_program: standard output", &error);
        return;
    }
    if let Some(error) = input.failure {
        streams::report_failure(&rt, "lesson_program: standard input", &error);
    }
}
