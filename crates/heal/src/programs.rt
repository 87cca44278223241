// The server of programs. None of its calls is built, so each is refused.
use crate::server::Server;

#[derive(Default, Drop)]
pub struct Programs;

impl Server for Programs {}
