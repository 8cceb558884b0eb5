// A line as a question: a name, then its arguments with one space before each.
use question_reader::Question;

// The shape of each question, in the order of the names: how many whole numbers follow its name, no word, and how many floats.
const SHAPES: [[usize; 4]; 27] = [
    [0, 0, 1, 0], // abs A
    [0, 0, 1, 0], // root A
    [0, 0, 1, 0], // sin A
    [0, 0, 1, 0], // cos A
    [0, 0, 1, 0], // acos C
    [0, 0, 2, 0], // least A B
    [0, 0, 2, 0], // greatest A B
    [0, 0, 3, 0], // lerp T A B
    [0, 0, 3, 0], // clamp V A B
    [1, 0, 0, 0], // whole N
    [0, 0, 8, 0], // dot Q Q
    [0, 0, 4, 0], // rotation Q
    [0, 0, 4, 0], // normalize Q
    [0, 0, 16, 0], // quat M
    [0, 0, 9, 0], // slerp T Q Q
    [0, 0, 16, 0], // inverse M
    [0, 0, 32, 0], // mul M M
    [0, 0, 22, 0], // bounds M BOX
    [0, 0, 16, 0], // decompose M
    [0, 0, 6, 0], // zeros C1 C2 C3 C4 C5 THETA
    [0, 0, 34, 0], // move T0 M0 T1 M1
    [0, 0, 0, 0], // parts
    [0, 0, 4, 0], // point T X Y Z
    [0, 0, 1, 0], // interp T
    [0, 0, 6, 0], // motion BOX
    [0, 0, 3, 0], // pmotion X Y Z
    [1, 0, 6, 0], // cover D BOX
];

// The question of a line, its whole number and its floats put into `wholes` and x.
pub(crate) fn parse(line: &[u8], wholes: &mut [u64; 4], x: &mut [f32; 34]) -> Question {
    question_reader::read_question(
        line,
        1200,
        b"abs root sin cos acos least greatest lerp clamp whole dot rotation normalize quat slerp inverse mul bounds decompose zeros \
          move parts point interp motion pmotion cover",
        &SHAPES,
        wholes,
        x,
    )
}
