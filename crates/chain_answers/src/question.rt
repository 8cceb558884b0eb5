// A line as a question: a name, then whole numbers, for some the word `plain` or `rigid`, and floats, with one space before each.
use question_reader::Question;

// The shape of each question, in the order of the names: how many whole numbers follow its name, whether the word that says how a chain is built,
// how many floats at least, and how many floats each thing has of which any number may follow, 0 for none.
const SHAPES: [[usize; 4]; 20] = [
    [1, 1, 0, 18], // chain S KIND P*
    [1, 1, 36, 0], // lone S KIND P P
    [1, 0, 4, 0], // cpoint S T X Y Z
    [2, 0, 3, 1], // ctimes S PLACES X Y Z T*
    [2, 0, 6, 0], // ccover S D BOX
    [2, 0, 1, 0], // cinterp S I T
    [2, 0, 0, 0], // cparts S I
    [2, 0, 6, 0], // cmotion S I BOX
    [2, 0, 3, 0], // cpmotion S I X Y Z
    [2, 0, 0, 6], // cset S D BOX*
    [0, 0, 1, 0], // acosn C
    [2, 0, 6, 0], // write S ROOM BOX
    [1, 0, 1, 0], // cpad S T
    [3, 0, 24, 0], // try S PLACE D P BOX
    [3, 0, 0, 0], // join S A B
    [0, 1, 0, 18], // stretch KIND P*
    [3, 0, 12, 1], // windows A B D BOXA BOXB T*
    [2, 0, 8, 0], // wcover S D BOX T0 T1
    [0, 0, 6, 6], // rows BOX BOX*
    [1, 0, 6, 0], // cut N BOX
];

// How many poses the slot that a question asks must have, where a move by itself counts as one.
const POSES: [usize; 20] = [
    0, // chain
    0, // lone
    1, // cpoint
    2, // ctimes
    1, // ccover
    1, // cinterp
    1, // cparts
    1, // cmotion
    1, // cpmotion
    2, // cset
    0, // acosn
    2, // write
    1, // cpad
    2, // try
    0, // join
    0, // stretch
    2, // windows
    2, // wcover
    0, // rows
    0, // cut
];

// The question of a line, its whole numbers and floats put into `wholes` and x.
pub(crate) fn parse(line: &[u8], wholes: &mut [u64; 4], x: &mut [f32; 900]) -> Question {
    question_reader::read_question(
        line,
        8000,
        b"chain lone cpoint ctimes ccover cinterp cparts cmotion cpmotion cset acosn write cpad try join stretch windows wcover rows cut",
        &SHAPES,
        wholes,
        x,
    )
}

// How many poses the slot must have.
pub(crate) fn poses_of(kind: usize) -> usize {
    if kind < 20 { POSES[kind] } else { 0 }
}
