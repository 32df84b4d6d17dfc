// What stands in a line: fields, lists, refusals, and what calls give. Each piece of a format is printed by itself.
use checks::Refusal;
use std::fmt::Write;
use std::{fmt, io};

// Prints each piece that is written to it. A format ends at the first that fails, whose error is kept.
#[derive(Drop)]
struct Pieces<'a, P> {
    rt: &'a P,
    printed: io::Result<()>,
}

impl<P: Print> fmt::Write for Pieces<'_, P> {
    fn write_str(&mut self, s: &str) -> fmt::Result {
        self.printed = self.rt.print(s);
        if self.printed.is_err() {
            return Err(fmt::Error);
        }
        Ok(())
    }
}

pub fn print<P: Print, D: fmt::Display + Drop>(rt: &P, value: D) -> io::Result<()> {
    let mut out = Pieces {
        rt,
        printed: Ok(()),
    };
    let _ = out.write(value);
    out.printed
}

// A name, a space and a value, each a piece: written out in a format, the name and the space would be one.
#[derive(Clone, Copy)]
pub struct Field<'a, T>(pub &'a str, pub T);

impl<T: fmt::Display> fmt::Display for Field<'_, T> {
    fn fmt<W: fmt::Write>(&self, f: &mut fmt::Formatter<W>) -> fmt::Result {
        write!(f, "{} {}", self.0, self.1)
    }
}

// The elements, each with a space before it.
#[derive(Clone, Copy)]
pub struct Spaced<'a, T>(pub &'a [T]);

impl<T: fmt::Display> fmt::Display for Spaced<'_, T> {
    fn fmt<W: fmt::Write>(&self, f: &mut fmt::Formatter<W>) -> fmt::Result {
        for x in self.0 {
            write!(f, " {x}")?;
        }
        Ok(())
    }
}

// The number, and the position.
#[derive(Clone, Copy)]
pub struct Refused(pub Refusal);

impl fmt::Display for Refused {
    fn fmt<W: fmt::Write>(&self, f: &mut fmt::Formatter<W>) -> fmt::Result {
        let code = self.0.code;
        let position = self.0.position;
        write!(f, "{} {position}", Field(" refused", code))
    }
}

// A value with its name before it, or a refusal.
#[derive(Clone, Copy)]
pub struct Given<'a, T>(pub &'a str, pub Result<T, Refusal>);

impl<T: fmt::Display> fmt::Display for Given<'_, T> {
    fn fmt<W: fmt::Write>(&self, f: &mut fmt::Formatter<W>) -> fmt::Result {
        match &self.1 {
            Ok(value) => write!(f, "{}", Field(self.0, value)),
            Err(r) => write!(f, "{}", Refused(*r)),
        }
    }
}

// The same of a value with a sign, which is one piece with the space.
#[derive(Clone, Copy)]
pub struct Signed<'a>(pub &'a str, pub Result<i32, Refusal>);

impl fmt::Display for Signed<'_> {
    fn fmt<W: fmt::Write>(&self, f: &mut fmt::Formatter<W>) -> fmt::Result {
        let name = self.0;
        match self.1 {
            Ok(z) => {
                let sign = if z < 0 { " -" } else { " " };
                let size = z.unsigned_abs();
                write!(f, "{name}{sign}{size}")
            }
            Err(r) => write!(f, "{}", Refused(r)),
        }
    }
}
