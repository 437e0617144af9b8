// The place of the first answer that is no.
pub fn first_false(answers: &[bool]) -> Option<usize> {
    for (i, is_true) in answers.iter().enumerate() {
        if !*is_true {
            return Some(i);
        }
    }
    None
}
