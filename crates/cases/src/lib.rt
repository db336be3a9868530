// What the programs that run cases share: the table of cases on standard input, and how answers and lent memory are printed. No contract
// can say what is read or printed, so those here say only which part of a line a field is, and how much a part of some memory holds at most.
// The only errors are those of a read or a write that fails. Of the memory that was to be filled, some may be filled then.
#![tactic(auto)]

mod escapes;
pub mod printing;
pub mod table;
