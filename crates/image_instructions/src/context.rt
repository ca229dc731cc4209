// What an instruction is judged by, beside its section: the edition, the sizes of the image, and whether this is the
// record section.
#[derive(Clone, Copy)]
pub struct Context {
    pub edition: u64,
    pub users: u64,
    pub constants: u64,
    pub eres: u64,
    pub main: bool,
}
