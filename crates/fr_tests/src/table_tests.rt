//! Values and tables of shapes, by worked cases: what fits, tables that break a rule, structs that
//! keep their invariants, tables made in code, and each call that allocates with ample memory.
mod calls;
mod described;
mod fits_rows;
mod invariants;
mod malformed;
