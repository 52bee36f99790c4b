// A content as an expression over items: variables as a form's author writes them, or occurrence numbers once it is marked.

#[derive(Drop)]
pub enum Expression<V> {
    Empty,
    Item(V),
    Sequence(Box<Expression<V>>, Box<Expression<V>>),
    Choice(Box<Expression<V>>, Box<Expression<V>>),
    // `*`: any number of times
    Star(Box<Expression<V>>),
    // `+`: once or more
    Plus(Box<Expression<V>>),
    // `?`: once or not at all
    Optional(Box<Expression<V>>),
}
