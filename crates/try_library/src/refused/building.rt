//! Calls of a builder, each of which is repeated if there was no memory for it.

ghost use Rattle.std.specs.Prelude.{IsTrue};
ghost use Rattle.std.specs.Option.{ForSome};
ghost use Rattle.mpslp_types.specs.Limit.{is_given};

use crate::refused::answers::{Answer, put, roomy};
use crate::refused::names::{named, spelled};
use crate::refused::refusing::{refuse, refuse_none};
use mpslp_convert::{RunFault, report};
use mpslp_decimal::Decimal;
use mpslp_model::{BuildFault, Builder, Limit, Model, Name, ReadFault, RowType, Sense};
use mpslp_test_devices::FailingWriter;
use mpslp_write::write_mps;
use std::alloc::{AllocError, Global};

/// Each call, with each of its errors that a line of a file can cause too. A call is its name and its arguments.
pub(crate) const EACH_CALL: &str = "objective f
objective g
row f L
row r L
row seventeen.letters G
row LONG E
limits s 1 1
rhs s 1
column x
column x
column seventeen.letters
column LONG
coefficient q x 1
coefficient r y 1
coefficient r x 1
coefficient r x 1
coefficient LONG LONG 1
coefficient seventeen.letters seventeen.letters 1
rhs r 4
rhs r 4
range f 1
range r 1e20
range r -2
range r -2
bounds x -1e20 -
bounds x 0 1
marked x
integer x
binary y
constant 5
rhs f 1
sense
sense
";

/// A model with a row and a column of each type.
pub(crate) const EACH_KIND: &str = "sense
objective LONG
row UP L
row LOW G
row EVEN E
row NOTE N
limits SEVENTEEN.LETTERS -1 1
rhs LONG -12.5
rhs UP 40
range UP 15
column X
coefficient LONG X 3
coefficient UP X 1.5
coefficient LOW X 0
marked X
column Y
coefficient EVEN Y -1
coefficient LOW Y 1e-3
integer Y
bounds Y -4 9
column SEVENTEEN.LETTERS
coefficient SEVENTEEN.LETTERS SEVENTEEN.LETTERS 2
column LONG
coefficient SEVENTEEN.LETTERS LONG 2
bounds LONG 0 1
column Z
coefficient NOTE Z 7
bounds Z 2 8
semi Z
column B
binary B
rhs LOW 1
";

/// The number of rows in one column. They are declared in descending order, so that most go into the column's tree.
const MANY: u16 = 150;

/// The calls of a model of many rows. One of them has the longest name, and every second one a name of 17 bytes.
pub(crate) fn calls_of_many_rows(alloc: Global) -> Result<String, AllocError> {
    let mut calls = String::from_str(alloc, "objective f\ncolumn x\nrow LONG L\n")?;
    for number in 100..100 + MANY {
        push_call(&mut calls, "row ", number, " L\n")?;
    }
    for number in (100..100 + MANY).rev() {
        push_call(&mut calls, "coefficient ", number, " x 2\n")?;
    }
    calls.push_str("coefficient LONG x 2\n")?;
    Ok(calls)
}

/// The name of a row up to its number.
fn front_of(number: u16) -> &'static str {
    if number % 2 == 0 {
        "r"
    } else {
        "row_number_is_"
    }
}

/// Appends a call with the name of the row of a number, which has three digits.
fn push_call(calls: &mut String, front: &str, number: u16, end: &str) -> Result<(), AllocError> {
    calls.push_str(front)?;
    calls.push_str(front_of(number))?;
    for digits in [number / 100, number / 10, number] {
        calls.push(char::from(b'0' + (digits % 10) as u8))?;
    }
    calls.push_str(end)
}

/// The number of a literal, or 0 if it is not one.
pub(crate) fn number(text: &str) -> Decimal {
    Decimal::parse(text.as_bytes()).unwrap_or(Decimal::zero())
}

/// The bound of a literal, or none for `-`.
fn side(text: &str) -> Option<Limit>
    ensures { ForSome result (λ side. IsTrue (is_given side)) }
{
    if text == "-" {
        None
    } else {
        Some(Limit::of(number(text)))
    }
}

fn row_type(letter: &str) -> RowType {
    match letter {
        "L" => RowType::AtMost,
        "G" => RowType::AtLeast,
        "E" => RowType::Equal,
        _ => RowType::Free,
    }
}

/// A call of a builder: its line, the name of the call, and its arguments.
#[derive(Clone, Copy)]
pub(crate) struct BuilderCall<'a> {
    line: &'a str,
    name: &'a str,
    first: &'a str,
    second: &'a str,
    third: &'a str,
}

impl<'a> BuilderCall<'a> {
    pub(crate) fn of(line: &'a str) -> BuilderCall<'a> {
        let mut words = line.split(' ');
        BuilderCall {
            line,
            name: words.next().unwrap_or(""),
            first: words.next().unwrap_or(""),
            second: words.next().unwrap_or(""),
            third: words.next().unwrap_or(""),
        }
    }

    /// Whether the call takes a name, and not the bytes of one.
    fn takes_name(&self) -> bool {
        matches!(self.name, "objective" | "row" | "limits" | "column")
    }

    /// The name that the call takes, if it takes one.
    pub(crate) fn new_name(&self, alloc: Global) -> Result<Option<Name>, BuildFault> {
        if self.takes_name() {
            Ok(Some(named(alloc, self.first)?))
        } else {
            Ok(None)
        }
    }

    /// Makes the call with the name that it takes.
    pub(crate) fn made_with(
        &self,
        builder: &mut Builder,
        name: Option<Name>,
    ) -> Result<(), BuildFault> {
        match name {
            Some(name) => self.made_with_name(builder, name),
            None => self.made_with_bytes(builder),
        }
    }

    /// Makes a call that takes a name.
    fn made_with_name(&self, builder: &mut Builder, name: Name) -> Result<(), BuildFault> {
        match self.name {
            "objective" => builder.objective(name),
            "row" => builder.row(name, row_type(self.second)),
            "limits" => builder.row_limits(
                name,
                Limit::of(number(self.second)),
                Limit::of(number(self.third)),
            ),
            _ => builder.column(name),
        }
    }

    /// Makes a call that takes the bytes of names, or none.
    fn made_with_bytes(&self, builder: &mut Builder) -> Result<(), BuildFault> {
        let first = spelled(self.first).as_bytes();
        match self.name {
            "sense" => builder.sense(Sense::Maximize),
            "constant" => builder.constant(number(self.first)),
            "rhs" => builder.rhs(first, number(self.second)),
            "range" => builder.range(first, number(self.second)),
            "coefficient" => {
                let column = spelled(self.second).as_bytes();
                builder.coefficient(first, column, number(self.third))
            }
            "bounds" => builder.bounds(first, side(self.second), side(self.third)),
            "marked" => builder.marked(first),
            "integer" => builder.integer(first),
            "binary" => builder.binary(first),
            _ => builder.semi(first),
        }
    }

    /// Makes the name that the call takes, and the call.
    pub(crate) fn made(&self, builder: &mut Builder, alloc: Global) -> Result<(), BuildFault> {
        let name = self.new_name(alloc)?;
        self.made_with(builder, name)
    }
}

/// The result of a call, in words.
fn text_of(answer: &Result<(), BuildFault>) -> &'static str {
    match answer {
        Ok(()) => "Ok",
        Err(BuildFault::OutOfMemory) => "out of memory",
        Err(fault) => fault.text(),
    }
}

pub(crate) fn put_answer(
    out: &mut FailingWriter,
    call: &BuilderCall<'_>,
    answer: &Result<(), BuildFault>,
) {
    put(out, call.line);
    put(out, ": ");
    put(out, text_of(answer));
    put(out, "\n");
}

/// Makes a call and, if there was no memory for it, makes it once more with memory. Returns whether there was none.
fn is_made_again(
    builder: &mut Builder,
    alloc: Global,
    call: &BuilderCall<'_>,
    out: &mut FailingWriter,
) -> bool {
    let answer = call.made(builder, alloc);
    put_answer(out, call, &answer);
    if !matches!(answer, Err(BuildFault::OutOfMemory)) {
        return false;
    }
    refuse_none(alloc);
    let answer = call.made(builder, alloc);
    put_answer(out, call, &answer);
    true
}

/// The model of the declarations.
pub(crate) fn finished(builder: Builder) -> Result<Model, ReadFault> {
    if builder.has_objective() {
        builder.finish()
    } else {
        Err(ReadFault::Failed)
    }
}

/// Puts the canonical text of a model, or its error. Returns whether there was no memory for it.
pub(crate) fn put_finished(out: &mut FailingWriter, answer: Result<Model, ReadFault>) -> bool {
    match answer {
        Ok(model) => {
            let _ = write_mps(&model, out);
            false
        }
        Err(ReadFault::File(fault)) => {
            let _ = report(&RunFault::File(fault), out);
            false
        }
        Err(ReadFault::Failed) => {
            put(out, "no objective\n");
            false
        }
        Err(ReadFault::OutOfMemory) => {
            put(out, "finish: out of memory\n");
            true
        }
    }
}

/// The results of a builder's calls, one per line, and then the model that they declare.
pub(crate) fn built(alloc: Global, calls: &str, growth: u32) -> Result<Answer, AllocError> {
    let mut out = roomy(alloc)?;
    let mut builder = Builder::new(alloc);
    let mut is_out_of_memory = false;
    refuse(alloc, growth);
    for line in calls.lines() {
        if is_made_again(&mut builder, alloc, &BuilderCall::of(line), &mut out) {
            is_out_of_memory = true;
        }
    }
    let answer = finished(builder);
    refuse_none(alloc);
    if put_finished(&mut out, answer) {
        is_out_of_memory = true;
    }
    Answer::of_sink(alloc, is_out_of_memory, &out)
}
