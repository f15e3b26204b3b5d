// The command `scan`: for each test of a tests file the bits that a tester shifts into the scan chains (specs/Scan.antt, ScanText.antt). The
// whole text is made before out is touched.
mod launched;
mod preparing;
mod scanning;
mod text;

pub(crate) use scanning::scan;
