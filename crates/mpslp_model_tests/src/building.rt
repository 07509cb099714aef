//! Tests of the builder's calls and of the accessors of its models, on worked examples.

mod calls;
mod columns;
mod iterators;
mod lines;
mod lp;
mod row_lists;
mod row_terms;
mod rows;

use crate::texts::side;
use calls::{built, first_other_answer, named};
use mpslp_builder::Builder;
use mpslp_decimal::{Decimal, DecimalText};
use mpslp_model_core::Model;
use mpslp_types::{BuildFault, Fault, FaultKind, Kind, Limit, ReadFault, Sense};
use std::alloc::{AllocError, Global};
use std::cmp::Ordering;
use std::test::Fail;

/// Calls that declare the objective f and the rows r and s.
const WITH_ROWS: &str = "\
objective f
row r L
row s G";

/// Calls that declare a model in which each row has coefficients in two of three columns.
const TWO_OF_THREE: &str = "\
objective COST
row r L
row s G
column c
column b
column a
coefficient r c 3
coefficient COST b 9
coefficient s b 2
coefficient r a 1
coefficient s c 4
rhs r 5
integer b";

/// The result of `finish`, if the objective has a name.
fn finished(builder: Builder) -> Option<Result<Model, ReadFault>> {
    if builder.has_objective() {
        Some(builder.finish())
    } else {
        None
    }
}

/// The model of these calls, if they mean one.
fn model_of(alloc: Global, calls: &str) -> Result<Option<Model>, BuildFault> {
    match finished(built(alloc, calls)?) {
        Some(Ok(model)) => Ok(Some(model)),
        _ => Ok(None),
    }
}

/// The results of a model's accessors as lines of words.
#[derive(Drop)]
struct Shown {
    text: Vec<u8>,
    number: DecimalText,
}

impl Shown {
    fn put(&mut self, words: &[u8]) -> Result<(), AllocError> {
        self.text.extend_from_slice(words)
    }

    /// A word and a name.
    fn put_name(&mut self, word: &str, name: &[u8]) -> Result<(), AllocError> {
        self.put(word.as_bytes())?;
        self.put(name)
    }

    /// A word and a number.
    fn put_number(&mut self, word: &str, value: Decimal) -> Result<(), AllocError> {
        self.put(word.as_bytes())?;
        self.text.extend_from_slice(self.number.put(value))
    }

    fn put_limit(&mut self, limit: Limit) -> Result<(), AllocError> {
        match limit {
            Limit::MinusInf => self.put(b" -inf".as_slice()),
            Limit::Finite(value) => self.put_number(" ", value),
            Limit::PlusInf => self.put(b" inf".as_slice()),
        }
    }

    fn put_objective(&mut self, model: &Model) -> Result<(), AllocError> {
        let sense = match model.objective_sense() {
            Sense::Minimize => "minimize ",
            Sense::Maximize => "maximize ",
        };
        self.put_name(sense, model.objective_name().as_bytes())?;
        self.put_number(" constant ", model.objective_constant())?;
        self.put_number(" offset ", model.objective_offset())?;
        self.put(b"\n".as_slice())
    }

    fn put_row(&mut self, model: &Model, i: usize) -> Result<(), AllocError> {
        if i >= model.num_rows() {
            return Ok(());
        }
        self.put_name("row ", model.row_name(i).as_bytes())?;
        self.put_name(" ", [model.row_sense(i)].as_slice())?;
        self.put_limit(model.row_lower(i))?;
        self.put_limit(model.row_upper(i))?;
        self.put_number(" rhs ", model.right_hand_side(i))?;
        self.put_number(" range ", model.row_range(i))?;
        self.put(b"\n".as_slice())
    }

    /// The terms of a row: its nonzeros by the accessors of rows.
    fn put_terms(&mut self, model: &Model, i: usize) -> Result<(), AllocError> {
        if i >= model.num_rows() {
            return Ok(());
        }
        for k in 0..model.row_len(i) {
            let (j, value) = model.row_entry(i, k);
            if j < model.num_cols() {
                self.put_name("term ", model.column_name(j).as_bytes())?;
                self.put_number(" ", value)?;
                self.put(b"\n".as_slice())?;
            }
        }
        Ok(())
    }

    fn put_column(&mut self, model: &Model, j: usize) -> Result<(), AllocError> {
        if j >= model.num_cols() {
            return Ok(());
        }
        let kind: &[u8] = match model.column_kind(j) {
            Kind::Continuous => b" continuous",
            Kind::Integer => b" integer",
            Kind::Semi => b" semi",
        };
        self.put_name("column ", model.column_name(j).as_bytes())?;
        self.put(kind)?;
        self.put_limit(model.col_lower(j))?;
        self.put_limit(model.col_upper(j))?;
        self.put_number(" objective ", model.objective_coefficient(j))?;
        self.put(b"\n".as_slice())
    }

    /// The entries of a column: its nonzeros by the accessors of columns.
    fn put_entries(&mut self, model: &Model, j: usize) -> Result<(), AllocError> {
        if j >= model.num_cols() {
            return Ok(());
        }
        for k in 0..model.column_len(j) {
            let (i, value) = model.entry(j, k);
            if i < model.num_rows() {
                self.put_name("entry ", model.row_name_bytes(i))?;
                self.put_number(" ", value)?;
                self.put_number(" ", model.coefficient(i, j))?;
                self.put(b"\n".as_slice())?;
            }
        }
        Ok(())
    }

    fn put_model(&mut self, model: &Model) -> Result<(), AllocError> {
        self.put_objective(model)?;
        for i in 0..model.num_rows() {
            self.put_row(model, i)?;
            self.put_terms(model, i)?;
        }
        for j in 0..model.num_cols() {
            self.put_column(model, j)?;
            self.put_entries(model, j)?;
        }
        Ok(())
    }
}

/// The results of a model's accessors as lines of words: the objective, the rows, then the columns with their nonzeros.
fn views_of(alloc: Global, model: &Model) -> Result<Vec<u8>, AllocError> {
    let mut shown = Shown {
        text: Vec::new(alloc),
        number: DecimalText::new(),
    };
    shown.put_model(model)?;
    Ok(shown.text)
}

/// The kind of an error, and the name that it reports.
fn text_of_fault(alloc: Global, fault: &Fault) -> Result<Vec<u8>, AllocError> {
    let mut text = fault.kind.text().as_bytes().to_vec(alloc)?;
    if let Some(name) = &fault.name {
        text.extend_from_slice(b" ".as_slice())?;
        text.extend_from_slice(name.as_bytes())?;
    }
    Ok(text)
}

/// The accessors' results for a model; without a model the kind of the error, and the name that it reports.
fn text_of(
    alloc: Global,
    answer: &Option<Result<Model, ReadFault>>,
) -> Result<Vec<u8>, AllocError> {
    match answer {
        Some(Ok(model)) => views_of(alloc, model),
        Some(Err(ReadFault::File(fault))) => text_of_fault(alloc, fault),
        _ => Ok(Vec::new(alloc)),
    }
}

/// The accessors' results for the model of a builder; without a model the kind of the error, and the name that it reports.
fn text_of_finished(alloc: Global, builder: Builder) -> Result<Vec<u8>, AllocError> {
    text_of(alloc, &finished(builder))
}

/// The accessors' results for the model of these calls; without a model the kind of the error, and the name that it reports.
fn outcome(alloc: Global, calls: &str) -> Result<Vec<u8>, BuildFault> {
    let builder = built(alloc, calls)?;
    Ok(text_of_finished(alloc, builder)?)
}

/// Whether the model of these calls, or its error, has this text.
fn is_outcome(alloc: Global, calls: &str, expected: &str) -> Result<bool, BuildFault> {
    Ok(outcome(alloc, calls)?.as_slice() == expected.as_bytes())
}

/// Whether this is one of the lines of the text.
fn has_line(text: &[u8], line: &str) -> bool {
    text.split(|byte| *byte == b'\n')
        .any(|own| own == line.as_bytes())
}

/// The first of these lines that the text does not have.
fn first_absent<'a>(text: &[u8], lines: &'a str) -> Option<&'a str> {
    for line in lines.lines() {
        if !has_line(text, line) {
            return Some(line);
        }
    }
    None
}

/// Whether the model of these calls, or its error, has this line.
fn has_outcome(alloc: Global, calls: &str, line: &str) -> Result<bool, BuildFault> {
    let text = outcome(alloc, calls)?;
    Ok(has_line(&text, line))
}

/// Whether the model of the calls before ` => `, or its error, has the line after it.
fn is_right(alloc: Global, case: &str) -> Result<bool, BuildFault> {
    match case.split_once(" => ") {
        Some((calls, line)) => has_outcome(alloc, calls, line),
        None => Ok(false),
    }
}

/// The first of these lines, each with calls and a line that their model has, whose model has no such line.
fn first_wrong<'a>(alloc: Global, cases: &'a str) -> Result<Option<&'a str>, BuildFault> {
    for case in cases.lines() {
        if !is_right(alloc, case)? {
            return Ok(Some(case));
        }
    }
    Ok(None)
}

/// Calls of one builder in turn, and the error of each that fails.
const ANSWERS: &str = "\
objective f
objective g: SecondObjective
row f L: DuplicateRow
row r L
column x
column x
coefficient q x 1: UnknownRow
coefficient r y 1: UnknownColumn
coefficient r x 1
coefficient r x 1: DuplicateEntry
rhs q 4: UnknownRow
rhs r 4
rhs r 4: DuplicateRhs
rhs f -5
rhs f -5: DuplicateRhs
range f 1: RangeOnFree
range r 1e20: InfiniteValue
range r -2
range r -2: DuplicateRange
bounds x -1e20 -
bounds x 0 1: DuplicateBound
bounds x - -
bounds y - -: UnknownColumn
bounds x - -1e20: InfiniteValue
marked x
marked x
integer x
integer y: UnknownColumn
sense maximize
sense maximize: DuplicateSense
row n N
rhs n 1
rhs n 1
range n 1: RangeOnFree";

/// Calls for the types of columns in turn, and the error of each that fails.
const KINDS: &str = "\
column x
semi y: UnknownColumn
semi x
semi x
integer x: SemiContinuous
marked x: SemiContinuous
column y
integer y
semi y: SemiContinuous
column z
marked z";

/// The first of these calls of one builder with another result, or whose query has another one.
fn first_other_answer_of<'a>(alloc: Global, lines: &'a str) -> Option<&'a str> {
    let mut builder = Builder::new(alloc);
    first_other_answer(&mut builder, alloc, lines)
}

/// Whether the builder knows the names of `ANSWERS`, and no others.
fn knows_its_names(builder: &mut Builder) -> bool {
    let has = builder.has_row(b"r") && builder.has_row(b"f") && builder.has_column(b"x");
    let has_others = builder.has_row(b"x") || builder.has_column(b"r");
    let finds = builder.find_column(b"x") && !builder.find_column(b"r");
    builder.has_objective() && has && !has_others && finds
}

/// What a builder returns for the calls of `ANSWERS`: whether it has an objective before them, the first of them with another
/// result, and whether it knows their names after them.
fn outcome_of_answers(alloc: Global) -> (bool, Option<&'static str>, bool) {
    let mut builder = Builder::new(alloc);
    let had_objective = builder.has_objective();
    let other = first_other_answer(&mut builder, alloc, ANSWERS);
    (had_objective, other, knows_its_names(&mut builder))
}

#[test]
fn answers_in_order(rt: HostRuntime) {
    let (had_objective, other, knows) = outcome_of_answers(rt.alloc());
    assert!(rt; !had_objective && knows);
    assert_eq!(rt; other, None);
}

#[test]
fn refuses_a_second_kind(rt: HostRuntime) {
    assert_eq!(rt; first_other_answer_of(rt.alloc(), KINDS), None);
}

/// The order of two names, and whether they are equal.
fn compared(alloc: Global, first: &str, second: &str) -> Result<(Ordering, bool), BuildFault> {
    let first = named(alloc, first)?;
    let second = named(alloc, second)?;
    Ok((first.cmp(&second), first == second))
}

#[test]
fn orders_names(rt: HostRuntime) -> Result<(), Fail> {
    let (order, are_equal) = compared(rt.alloc(), "x1", "x10")?;
    assert_eq!(rt; order, Ordering::Less);
    assert_eq!(rt; are_equal, false);
    Ok(())
}

#[test]
fn orders_sides(rt: HostRuntime) {
    let rise = [
        Limit::MinusInf < side("-5"),
        side("-5") < side("3e-2"),
        side("7") < Limit::PlusInf,
    ];
    assert_eq!(rt; rise, [true; 3]);
    let infinite = [side("-1e20"), side("1e20")];
    assert_eq!(rt; infinite, [Limit::MinusInf, Limit::PlusInf]);
}

#[test]
fn finds_kinds_by_name(rt: HostRuntime) {
    let names = [
        FaultKind::LineTooLong.text(),
        FaultKind::BinaryBounds.text(),
        FaultKind::SemiBounds.text(),
    ];
    assert_eq!(rt; names, ["LineTooLong", "BinaryBounds", "SemiBounds"]);
}

/// A model with an objective, a limit and a demand.
const SMALL: &str = "\
objective COST
row LIM1 L
row MYG G
column X
coefficient COST X 1.0
coefficient LIM1 X 1
column Y
coefficient COST Y 2
coefficient MYG Y 1.50
rhs LIM1 4
rhs MYG 1";

/// The same model in another order, with other spellings and a zero.
const TURNED: &str = "\
column Y
column X
row MYG G
row LIM1 L
rhs MYG 1
rhs LIM1 4.0
objective COST
coefficient MYG Y 15e-1
coefficient LIM1 Y 0
coefficient LIM1 X 1
coefficient COST Y 2
coefficient COST X 1
sense minimize";

/// The numbers that a model has for the rows MYG and COST, then for the columns Y and MYG.
fn numbers_in(model: &Model) -> [Option<usize>; 4] {
    [
        model.row_index(b"MYG"),
        model.row_index(b"COST"),
        model.column_index(b"Y"),
        model.column_index(b"MYG"),
    ]
}

/// The numbers of `numbers_in` for the model of these calls, or none without a model.
fn numbers_of(alloc: Global, calls: &str) -> Result<[Option<usize>; 4], BuildFault> {
    match model_of(alloc, calls)? {
        Some(model) => Ok(numbers_in(&model)),
        None => Ok([None; 4]),
    }
}

#[test]
fn shows_a_model_built_by_calls(rt: HostRuntime) -> Result<(), Fail> {
    let expected = "minimize COST constant 0 offset 0
row LIM1 L -inf 4 rhs 4 range 0
term X 1
row MYG G 1 inf rhs 1 range 0
term Y 1.5
column X continuous 0 inf objective 1
entry LIM1 1 1
column Y continuous 0 inf objective 2
entry MYG 1.5 1.5
";
    assert!(rt; is_outcome(rt.alloc(), SMALL, expected)?);
    assert_eq!(rt; num_elements_of(rt.alloc(), SMALL)?, Some(2));
    let numbers = numbers_of(rt.alloc(), SMALL)?;
    assert_eq!(rt; numbers, [Some(1), None, Some(1), None]);
    Ok(())
}

/// Whether two models are the same, if both are there.
fn same_of(one: &Option<Model>, other: &Option<Model>) -> Option<bool> {
    match one {
        Some(one) => match other {
            Some(other) => Some(one.same(other)),
            None => None,
        },
        None => None,
    }
}

/// Whether a model and that of these calls are the same, if they are there.
fn is_same(alloc: Global, one: &Option<Model>, calls: &str) -> Result<Option<bool>, BuildFault> {
    let other = model_of(alloc, calls)?;
    Ok(same_of(one, &other))
}

/// Whether the models of these calls are the same, if they mean models.
fn are_same(alloc: Global, calls: &str, others: &str) -> Result<Option<bool>, BuildFault> {
    let one = model_of(alloc, calls)?;
    is_same(alloc, &one, others)
}

/// The number of elements of the model of these calls, if they mean one.
fn num_elements_of(alloc: Global, calls: &str) -> Result<Option<u128>, BuildFault> {
    match model_of(alloc, calls)? {
        Some(model) => Ok(Some(model.num_elements())),
        None => Ok(None),
    }
}

#[test]
fn a_model_is_the_same_in_any_order(rt: HostRuntime) -> Result<(), Fail> {
    assert_eq!(rt; are_same(rt.alloc(), SMALL, TURNED)?, Some(true));
    assert_eq!(rt; num_elements_of(rt.alloc(), TURNED)?, Some(2));
    Ok(())
}

/// A model that is minimized.
const LEAST: &str = "\
objective C
column X";

/// The same model, maximized.
const GREATEST: &str = "\
objective C
column X
sense maximize";

#[test]
fn models_of_two_senses_differ(rt: HostRuntime) -> Result<(), Fail> {
    assert_eq!(rt; are_same(rt.alloc(), LEAST, GREATEST)?, Some(false));
    Ok(())
}

/// Two rows with infinite right-hand sides, and no column.
const WITHOUT_COLUMNS: &str = "\
objective C
row R2 E
row R10 E
rhs R2 1e20
rhs R10 1e20";

/// The same rows, and a column with a negative upper bound.
const FAULTY: &str = "\
objective C
row R2 E
row R10 E
rhs R2 1e20
rhs R10 1e20
column X
bounds X - -1";

#[test]
fn reports_the_first_fault_of_the_whole(rt: HostRuntime) -> Result<(), Fail> {
    let alloc = rt.alloc();
    assert!(rt; is_outcome(alloc, FAULTY, "InfiniteLimit R10")?);
    assert!(rt; is_outcome(alloc, WITHOUT_COLUMNS, "NoColumns")?);
    assert!(rt; is_outcome(alloc, "objective C", "NoColumns")?);
    Ok(())
}

/// A model with defaults.
const PLAIN: &str = "\
objective f
row r L
column x
coefficient r x 1
rhs r 4
rhs f -5
sense maximize";

/// A whole model; the last four calls change defaults of the one before.
const WHOLE: &str = "\
objective f
row r L
column x
coefficient r x 1
rhs r 4
rhs f -5
sense maximize
range r -2
bounds x -1e20 -
marked x
integer x";

#[test]
fn ends_in_the_model_of_its_calls(rt: HostRuntime) -> Result<(), Fail> {
    let bounded = "maximize f constant 5 offset -5
row r R 2 4 rhs 4 range 2
term x 1
column x integer -inf inf objective 0
entry r 1 1
";
    let plain = "maximize f constant 5 offset -5
row r L -inf 4 rhs 4 range 0
term x 1
column x continuous 0 inf objective 0
entry r 1 1
";
    assert!(rt; is_outcome(rt.alloc(), WHOLE, bounded)?);
    assert!(rt; is_outcome(rt.alloc(), PLAIN, plain)?);
    Ok(())
}
