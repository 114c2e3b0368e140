//! Rows with what proves them.

use it_space::{Certificate, Row};

/// A row, the certificate that proves it, and the line in whose terms the left side of its proof is told, if there is one.
#[derive(Drop)]
pub struct Proven<'a> {
    pub row: &'a Row,
    pub certificate: &'a Certificate,
    pub line: Option<&'a [u8]>,
}
