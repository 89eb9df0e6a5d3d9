//! Words as they are read, and the classes of what they ask for, by rows.
mod classes;
mod rows;
mod shell;
mod shown;
mod utilities;
