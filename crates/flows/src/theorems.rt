//! What follows from a certificate, on the contract of a function that does nothing.
ghost use Rattle.flows.specs.Paths.{CertificatesGiveShortestPaths};

/// A certificate gives each value of a label a shortest path from a mark, and leaves out no value that has a path.
pub fn certificates_stand()
    ensures { CertificatesGiveShortestPaths }
{}
