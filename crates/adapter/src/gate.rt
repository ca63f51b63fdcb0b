/// What a worker calls in each of its turns. A gate changes no state: it is there for tests, which
/// hold a worker at it.
pub trait Gate {
    /// The worker holds no lock, and takes that of its role next.
    fn before(&self, role: u32, thread: u32);

    /// The worker holds its role's lock, and has done nothing with the state yet.
    fn at(&self, role: u32, thread: u32);
}

/// The gate that holds nobody.
#[derive(Drop)]
pub struct OpenGate;

impl Gate for OpenGate {
    fn before(&self, _role: u32, _thread: u32) {}

    fn at(&self, _role: u32, _thread: u32) {}
}
