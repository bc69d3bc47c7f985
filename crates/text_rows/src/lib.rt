//! Worked rows of `tm_io`, `tm_script`, `work_script` and `tm_report`, apart from them since a
//! crate with tests is proved twice.
#![tactic(auto)]

#[cfg(test)]
mod ends;
#[cfg(test)]
mod reports;
#[cfg(test)]
mod scripts;
#[cfg(test)]
mod works;
