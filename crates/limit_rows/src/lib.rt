// Limits, masks, magic numbers, field values and places: specs/LimitRows.antt has them as rows of one theorem about the definitions.
#![tactic(auto)]
