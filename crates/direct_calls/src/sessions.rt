// The commands on the session that read a line of a schedule file, its byte 10 too.
use session::Session;

// Opens a session, and shows the number of its refusal.
pub fn open(rt: &HostRuntime, header: &[u8]) -> Session {
    let s = session::open(header);
    let _ = print!(rt; " {}", moves::number_of(s.refusal));
    s
}

// Serves a line, and shows the first bytes of its buffer, none if there are not so many, and its reply.
pub fn serve(rt: &HostRuntime, s: Session, line: &[u8], shown: usize) -> Session {
    let mut buffer = [b'.'; 928];
    let o = session::serve(s, line, &mut buffer);
    let front = buffer.get(..shown).unwrap_or(&[]);
    crate::show(rt, front, o.reply);
    o.session
}
