/// What the arguments set: each option once at most, and two positional arguments at most.
#[derive(Clone, Copy, Debug)]
pub struct RawArgs<'a> {
    pub brief: bool,
    pub conflicts: Option<&'a str>,
    pub threads: Option<&'a str>,
    pub command: Option<&'a str>,
    pub name: Option<&'a str>,
}
