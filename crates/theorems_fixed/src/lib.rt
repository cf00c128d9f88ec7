// Of every public function which definition it answers.
#![tactic(auto)]
