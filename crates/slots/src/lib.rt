// Messages by slots: where each entry of each check lies in a work area (`specs/Layout.antt`, `specs/Columns.antt`), and the laws of those places,
// for the crates above.
#![tactic(auto)]
