/// The end's role on the link.
#[derive(Clone, Copy)]
pub(crate) enum Role {
    /// The end that begins the link.
    Caller,
    /// The end that waits for it.
    Called,
}

/// The phase of a link.
#[derive(Clone, Copy)]
pub(crate) enum Phase {
    /// A caller's link that has not begun.
    Fresh,
    /// The start-up waits for INITA.
    AwaitsInitA,
    /// The start-up waits for INITB.
    AwaitsInitB,
    /// The start-up waits for INITC.
    AwaitsInitC,
    /// Messages may go both ways.
    Up,
    /// This end has closed the link and waits for the other's CLOSE.
    Closing,
    /// The link has ended.
    Halted,
}
