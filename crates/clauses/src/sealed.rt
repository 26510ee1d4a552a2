pub mod book;
pub mod scanner;
pub mod text;
