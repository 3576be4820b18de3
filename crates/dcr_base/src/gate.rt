use std::sync::Wait;

/// What each call of a cluster passes between its decision and the journal's lock. It may wait there, as in a test that
/// holds a call until another one has come. Nothing is promised of it.
pub trait Gate {
    /// A call of the session is here: the one of this number, from 0.
    fn at<R: Wait>(&self, rt: &R, session: u32, seq: u32);
}

/// A gate that lets each call pass at once.
#[derive(Clone, Copy, Debug, Drop)]
pub struct OpenGate;

impl Gate for OpenGate {
    fn at<R: Wait>(&self, _: &R, _: u32, _: u32) {}
}

/// A gate behind a reference, so that one gate serves several clusters, or can be asked afterwards.
impl<G: Gate> Gate for &G {
    fn at<R: Wait>(&self, rt: &R, session: u32, seq: u32) {
        G::at(self, rt, session, seq);
    }
}
