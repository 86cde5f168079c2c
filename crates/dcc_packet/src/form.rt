//! Functions that write a line that consists of a keyword and fields.
ghost use Rattle.std.specs.Prelude.{◌≡◌, ◌+◌, ◌≤◌, ◌++◌, ◌∷◌, length};
ghost use Rattle.arrayvec.specs.ArrayString.{array_string_len};
ghost use Rattle.dcc_packet.specs.Written.{spaced_words, words_in_line};

use crate::field::{Field, Line};
use crate::to_line_word::put_word;

/// Appends a keyword and the words of `fields` to `line`, with a space before each word.
pub(crate) fn put_form<F: Field>(line: &mut Line, keyword: &str, fields: &F)
    requires { array_string_len line.old + (1 + length keyword.now + F.most) ≤ 40 }
    ensures bytes { line.new.bytes ≡ line.old.bytes ++ spaced_words (keyword.now ∷ F.field.written fields.now) }
    ensures len { array_string_len line.new ≤ array_string_len line.old + (1 + length keyword.now + F.most) }
{
    put_word(line, keyword);
    fields.put(line);
}

/// Appends a keyword and the words of `fields` to `line`, without a space before the keyword. A form
/// at the beginning of a line has no such space.
pub(crate) fn put_first_form<F: Field>(line: &mut Line, keyword: &str, fields: &F)
    requires { array_string_len line.old + (length keyword.now + F.most) ≤ 40 }
    ensures { line.new.bytes ≡ line.old.bytes ++ words_in_line (keyword.now ∷ F.field.written fields.now) }
{
    line.push_str(keyword);
    fields.put(line);
}

/// Returns the line that consists of a keyword and the words of `fields`.
pub fn form_line<F: Field>(keyword: &str, fields: &F) -> Line
    requires { length keyword.now + F.most ≤ 40 }
    ensures { result.bytes ≡ words_in_line (keyword.now ∷ F.field.written fields.now) }
{
    let mut line = Line::new();
    put_first_form(&mut line, keyword, fields);
    line
}
