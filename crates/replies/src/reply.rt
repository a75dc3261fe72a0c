// What a request is answered with: the product, or why there is none.
use requests::request::Table;
use windows::refusal::Refusal;

pub type Reply = Result<Table, Refusal>;
