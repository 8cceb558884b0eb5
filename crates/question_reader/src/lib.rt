// A line as a question: a name, then whole numbers, for some the word `plain` or `rigid`, and floats, with one space before each.
// A question's shape says what follows its name: how many whole numbers, whether that word (0: no), how many floats at least, and how many floats each
// thing has of which any number may follow, 0 for none.
#![tactic(auto)]

ghost use Rattle.std.specs.Prelude.{◌≡◌, ◌≤◌, eqb, length};
ghost use Rattle.question_lines.specs.Words.{Words-position};
ghost use Rattle.question_reader.specs.Question.{word_end, word_at, Decimals-end, Decimals-stored, Kind-read, Shape-fits};
ghost use Rattle.question_reader.specs.Question.{Question-none, Question-rest, rest_stored, Question-read, wholes_stored, values_stored};

use question_lines::{part, position};

// What is asked, as the place of its name, whether its word is `rigid`, and how many floats it has.
#[derive(Clone, Copy)]
pub struct Question {
    pub kind: usize,
    pub rigid: bool,
    pub floats: usize,
}

// The place behind the word that says how a chain is built, and whether it is `rigid`.
#[derive(Clone, Copy)]
struct Kind {
    end: usize,
    rigid: bool,
}

// The question of a line, by the names and the shapes of the questions in order; its whole numbers and floats put into `wholes` and `values`.
// The kind of a line that is none, or has more bytes than `most`, is a place that no name has. Accuracy: exact.
pub fn read_question(
    line: &[u8],
    most: usize,
    names: &[u8],
    shapes: &[[usize; 4]],
    wholes: &mut [u64; 4],
    values: &mut [f32],
) -> Question
    ensures value { result ≡ Question-read most names.now shapes.now line.now values.old }
    ensures wholes { wholes.new ≡ wholes_stored most names.now shapes.now line.now wholes.old }
    ensures values { values.new ≡ values_stored most names.now shapes.now line.now values.old }
{
    if most < line.len() {
        return none();
    }
    let end = word_end(line, 0);
    let kind = position(part(line, 0, end), names);
    if shapes.len() <= kind {
        return none();
    }
    let shape = shapes[kind];
    let at = read_decimals(line, end, shape[0], wholes);
    let k = read_kind(line, at, shape[1]);
    read_rest(line, k.end, kind, k.rigid, shape, values)
}

// Whether a line's first word is a name. Accuracy: exact.
pub fn is_named(line: &[u8], name: &[u8]) -> bool
    ensures value { result ≡ eqb (Words-position (word_at line.now 0) name.now) 0 }
{
    let end = word_end(line, 0);
    position(part(line, 0, end), name) == 0
}

fn none() -> Question
    ensures { result ≡ Question-none }
{
    Question {
        kind: usize::MAX,
        rigid: false,
        floats: 0,
    }
}

// The place behind the word that starts at a place: that of the next space, or the line's end.
fn word_end(line: &[u8], start: usize) -> usize
    requires { start ≤ length line.now }
    ensures value { result ≡ word_end line.now start }
    ensures upper_bound { result ≤ length line.now }
{
    question_lines::find(line, start, b' ')
}

// The whole numbers, a space before each, from `at` on. Gives the place behind them, and one that no line has where one is malformed.
fn read_decimals(line: &[u8], at: usize, count: usize, wholes: &mut [u64; 4]) -> usize
    ensures value { result ≡ Decimals-end count line.now at }
    ensures left { wholes.new ≡ Decimals-stored count line.now at wholes.old }
{
    if 4 < count {
        return usize::MAX;
    }
    let mut end = at;
    for k in 0..count {
        if line.len() <= end {
            return usize::MAX;
        }
        let start = end + 1;
        end = word_end(line, start);
        match question_lines::read_decimal(part(line, start, end)) {
            Some(n) => wholes[k] = n,
            None => return usize::MAX,
        }
    }
    end
}

// The word that says how a chain is built, where a question has one; behind another word no line has a place.
fn read_kind(line: &[u8], at: usize, words: usize) -> Kind
    ensures { result ≡ Kind-read words line.now at }
{
    if words == 0 {
        return Kind {
            end: at,
            rigid: false,
        };
    }
    if line.len() <= at {
        return Kind {
            end: usize::MAX,
            rigid: false,
        };
    }
    let start = at + 1;
    let end = word_end(line, start);
    let place = position(part(line, start, end), b"plain rigid");
    if 2 <= place {
        return Kind {
            end: usize::MAX,
            rigid: false,
        };
    }
    Kind {
        end,
        rigid: place == 1,
    }
}

// Floats from `at` on, up to the line's end.
fn read_rest(
    line: &[u8],
    at: usize,
    kind: usize,
    rigid: bool,
    shape: [usize; 4],
    values: &mut [f32],
) -> Question
    ensures value { result ≡ Question-rest line.now at kind rigid shape values.old }
    ensures left { values.new ≡ rest_stored line.now at shape values.old }
{
    if line.len() < at {
        return none();
    }
    let floats = (line.len() - at) / 9;
    if !shape_fits(shape, floats) {
        return none();
    }
    if question_lines::read_floats(part(line, at, line.len()), floats, values) {
        return Question {
            kind,
            rigid,
            floats,
        };
    }
    none()
}

// Whether a question of this shape may have so many floats.
fn shape_fits(shape: [usize; 4], floats: usize) -> bool
    ensures { result ≡ Shape-fits shape floats }
{
    let fewest = shape[2];
    let each = shape[3];
    if floats < fewest {
        return false;
    }
    if each == 0 {
        return floats == fewest;
    }
    (floats - fewest) % each == 0
}
