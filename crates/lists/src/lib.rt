// Lists: entries below a number, parts, and loops that go through a list or fill one. Laws alone, and one definition (`specs/Below.antt`).
#![tactic(auto)]
