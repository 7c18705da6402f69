mod calling;
mod faults;
mod pieces;
mod records;
mod runs;
mod texts;
