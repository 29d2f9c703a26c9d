// The starred cases of document 01, in one table under one claim. There is no code here.
#![tactic(auto)]
