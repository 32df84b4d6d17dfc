// The report program (document 02, A.4): a lesson file from standard input, its class report to standard output.
#![tactic(auto)]

ghost use Rattle.std.specs.Prelude.{◌≡◌, List, ℕ, ◌≤◌, length, take};
ghost use Rattle.lesson_samples.specs.Input.{Read};
ghost use Rattle.report.specs.Report.{report_text, report_room};

use residue::Word;

// Puts the report of the whole input in front of `text`, and answers its length. The library refuses no file: there is room for the report of
// each.
fn make_text(buffer: &[u8], count: usize, words: &mut [Word], text: &mut [u8]) -> usize
    requires past_limit { 60001 ≤ length buffer.now }
    requires in_buffer { count ≤ length buffer.now }
    requires word_room { 1792 ≤ length words.old }
    requires text_room { report_room ≤ length text.old }
    ensures of_input { (input : List ℕ) → Read input buffer.now count → take result text.new ≡ report_text input }
    ensures in_text { result ≤ length text.new }
{
    let mut out: [Word; 8] = [0; 8];
    let mut work: [Word; 8] = [0; 8];
    report::write_text(&buffer[..count], words, &mut out, &mut work, text).unwrap_or(0)
}

// What `make_text` promises is proved; that the bytes read go to it, and its text to standard output, is these lines. Where a read failed
// nothing is printed: a report of no samples would look like that of an empty file.
fn main(rt: HostRuntime) {
    let mut file = [0u8; 60001];
    let mut words: [Word; 1792] = [0; 1792];
    let mut text = [0u8; 1200];
    let input = streams::read_input(&mut rt.stdin(), &mut file);
    if let Some(error) = input.failure {
        streams::report_failure(&rt, "report_program: standard input", &error);
        return;
    }
    let length = make_text(&file, input.count, &mut words, &mut text);
    if let Err(error) = rt.write_all(&text[..length]) {
        streams::report_failure(&rt, "report_program: standard output", &error);
    }
}
