//! The words of the lines that show a model, written to a sink.

ghost use Rattle.std.specs.Prelude.{◌≡◌, ◌++◌, codes, decimal};
ghost use Rattle.mpslp_decimal.specs.NumberText.{number_text};
ghost use Rattle.mpslp_io.specs.Printing.{Puts};
ghost use Rattle.mpslp_conversions.specs.ShownText.{sense_word, kind_word, limit_text};

use mpslp_decimal::{Decimal, DecimalText};
use mpslp_io::Output;
use mpslp_model::{Kind, Limit, Sense, Sink};

/// Puts a space and a word.
pub(crate) fn put_shown_word<W: Sink>(output: &mut Output<W>, word: &[u8])
    ensures { Puts W.Sink output.old output.new (codes " " ++ word.now) }
{
    output.put(b" ");
    output.put(word);
}

/// Puts a space and a count or an index.
pub(crate) fn put_shown_count<W: Sink>(output: &mut Output<W>, count: u128)
    ensures { Puts W.Sink output.old output.new (codes " " ++ decimal count) }
{
    let mut digits = itoa::Buffer::new();
    put_shown_word(output, digits.format(count).as_bytes());
}

/// Puts a space and a number.
pub(crate) fn put_shown_number<W: Sink>(output: &mut Output<W>, value: Decimal)
    ensures { Puts W.Sink output.old output.new (codes " " ++ number_text value) }
{
    let mut text = DecimalText::new();
    put_shown_word(output, text.put(value));
}

/// Puts a space and a limit of a row or a bound of a column.
pub(crate) fn put_shown_limit<W: Sink>(output: &mut Output<W>, limit: &Limit)
    ensures { Puts W.Sink output.old output.new (codes " " ++ limit_text limit.now) }
{
    match limit {
        Limit::MinusInf => put_shown_word(output, b"-inf"),
        Limit::Finite(value) => put_shown_number(output, *value),
        Limit::PlusInf => put_shown_word(output, b"inf"),
    }
}

/// The word for a sense.
pub(crate) fn sense_word(sense: Sense) -> &'static [u8]
    ensures { result.now ≡ sense_word sense }
{
    match sense {
        Sense::Minimize => b"minimize".as_slice(),
        Sense::Maximize => b"maximize".as_slice(),
    }
}

/// The word for a variable type.
pub(crate) fn kind_word(kind: Kind) -> &'static [u8]
    ensures { result.now ≡ kind_word kind }
{
    match kind {
        Kind::Continuous => b"continuous".as_slice(),
        Kind::Integer => b"integer".as_slice(),
        Kind::Semi => b"semi".as_slice(),
    }
}
