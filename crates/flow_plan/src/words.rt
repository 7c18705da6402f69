/// How many words the rows of a plan have, as its last leaf asks for.
#[derive(Clone, Copy)]
pub enum Words {
    Narrow,
    Middle,
    Wide,
}
