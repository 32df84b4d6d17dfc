// The line of a sample.
ghost use Rattle.text.specs.Text.{spaced, HasRoom, Written};
ghost use Rattle.lesson.specs.Text.{parameter_fields, fields_line};

use lesson_file::Parameters;
use lesson_samples::Sampled;
use residue::Word;
use text::Writer;

// n, k, q and the words used, each behind a space.
fn write_parameters(text: &mut Writer<'_>, parameters: Parameters, used: usize)
    requires { HasRoom text.old (spaced (parameter_fields parameters.n parameters.k parameters.q used)) }
    ensures { Written text.old (spaced (parameter_fields parameters.n parameters.k parameters.q used)) text.new }
{
    text.field(parameters.n);
    text.field(parameters.k);
    text.field(residue::to_usize(parameters.q));
    text.field(used);
}

pub fn write_line(text: &mut Writer<'_>, number: usize, sampled: Sampled, shares: &[Word])
    requires { HasRoom text.old (fields_line number sampled.parameters.n sampled.parameters.k sampled.parameters.q sampled.used sampled.value shares.now) }
    ensures { Written text.old (fields_line number sampled.parameters.n sampled.parameters.k sampled.parameters.q sampled.used sampled.value shares.now) text.new }
{
    text.decimal(number);
    write_parameters(text, sampled.parameters, sampled.used);
    text.signed_field(sampled.value);
    text.words(shares);
    text.bytes(b"\n");
}
