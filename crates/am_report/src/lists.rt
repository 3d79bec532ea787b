//! Lists as words of a line.

ghost use Rattle.std.specs.Prelude.{◌≡◌};
ghost use Rattle.std.specs.Fmt.{decimal, WritesOnOk};
ghost use Rattle.am_report.specs.Lists.{behind_commas};
ghost use Rattle.am_report.specs.Words.{listed_word_of};

use crate::words::ListedWord;
use am_nflog::HashIter;
use am_wire::Text;
use std::fmt::{self, Display};

/// Numbers that are displayed as a word: in decimal with commas between them, or `-` if there are none.
#[derive(Drop)]
pub struct Numbers<'a>(pub HashIter<'a>);

impl Display for Numbers<'_> {
    ghost use Rattle.std.specs.Prelude.{Some};
    ghost use Rattle.am_report.specs.Lists.{numbers_word};

    ghost output = { λ numbers. Some (numbers_word numbers.0) };

    fn fmt<W: fmt::Write>(&self, f: &mut fmt::Formatter<W>) -> fmt::Result {
        let mut numbers = self.0.again();
        let Some(first) = numbers.next() else {
            return f.write_str("-");
        };
        write!(f, "{first}")?;
        write_numbers(numbers, f)
    }
}

/// Writes numbers, each behind a comma.
fn write_numbers<W: fmt::Write>(numbers: HashIter<'_>, f: &mut fmt::Formatter<W>) -> fmt::Result
    ensures { WritesOnOk W.write_str_gives f.old result (behind_commas decimal numbers.entry) f.new }
{
    for number in numbers {
        write!(f, ",{number}")?;
    }
    Ok(())
}

/// Numbers of fields that are displayed as a word, like [`Numbers`].
#[derive(Clone, Copy)]
pub struct FieldNumbers<'a>(pub &'a [u32]);

impl Display for FieldNumbers<'_> {
    ghost use Rattle.std.specs.Prelude.{Some};
    ghost use Rattle.am_report.specs.Lists.{numbers_word};

    ghost output = { λ numbers. Some (numbers_word numbers.0.now) };

    fn fmt<W: fmt::Write>(&self, f: &mut fmt::Formatter<W>) -> fmt::Result {
        let Some((first, rest)) = self.0.split_first() else {
            return f.write_str("-");
        };
        write!(f, "{first}")?;
        write_field_numbers(rest, f)
    }
}

/// Writes numbers of fields, each behind a comma.
fn write_field_numbers<W: fmt::Write>(numbers: &[u32], f: &mut fmt::Formatter<W>) -> fmt::Result
    ensures { WritesOnOk W.write_str_gives f.old result (behind_commas decimal numbers.now) f.new }
{
    for number in numbers {
        write!(f, ",{number}")?;
    }
    Ok(())
}

/// Texts that are displayed as a word: each as a [`ListedWord`], with commas between them, or `-` if there are none.
#[derive(Clone, Copy)]
pub struct Texts<'a>(pub &'a [Text]);

impl Display for Texts<'_> {
    ghost use Rattle.std.specs.Prelude.{Some};
    ghost use Rattle.am_report.specs.Lists.{texts_word};

    ghost output = { λ texts. Some (texts_word texts.0.now) };

    fn fmt<W: fmt::Write>(&self, f: &mut fmt::Formatter<W>) -> fmt::Result {
        let Some((first, rest)) = self.0.split_first() else {
            return f.write_str("-");
        };
        listed(first).fmt(f)?;
        write_texts(rest, f)
    }
}

/// Returns a text as a word of a list.
fn listed(text: &Text) -> ListedWord<'_>
    ensures { result.0.now ≡ text.now }
{
    ListedWord(text.as_str().as_bytes())
}

/// Writes texts as words of a list, each behind a comma.
fn write_texts<W: fmt::Write>(texts: &[Text], f: &mut fmt::Formatter<W>) -> fmt::Result
    ensures { WritesOnOk W.write_str_gives f.old result (behind_commas listed_word_of texts.now) f.new }
{
    for text in texts {
        write!(f, ",{}", listed(text))?;
    }
    Ok(())
}
