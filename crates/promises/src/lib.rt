// What the import promises (document 02, Point 3), as theorems. No function stands here.
#![tactic(auto)]
